// Structs. Translated from src/equal/structure.rs of arrow-data 60.1.0 (Apache-2.0).
ghost use Rattle.std.specs.Prelude.{◌≡◌, ◌⊎◌};
ghost use Rattle.image.specs.declared.type_code.Layout.TheVariants.{Struct, SparseUnion};
ghost use Rattle.image.specs.Record.{code_of};
ghost use Rattle.image.specs.TypeCode.{layout_of};
ghost use Rattle.image.specs.Row.{struct_row};
ghost use Rattle.values.specs.Pair.{equal_rows, nested, PartsOf};

use crate::equal_range;
use values::pair::{Pair, Rows};

// Structs without nulls: child by child over the whole range.
#[cycle(rows)]
pub fn equal(pair: &Pair, rows: Rows, depth: usize) -> bool
    requires parts { PartsOf pair.now rows depth }
    requires layout { (layout_of (code_of pair.now.left.image.now pair.now.left.number) ≡ Struct) ⊎ (layout_of (code_of pair.now.left.image.now pair.now.left.number) ≡ SparseUnion) }
    ensures { result ≡ equal_rows (nested struct_row depth) pair.now rows }
{
    for c in 0..pair.left.child_count() {
        if !equal_range(&pair.child(c), rows, depth) {
            return false;
        }
    }
    true
}
