// Fixed-size lists. Translated from src/equal/fixed_list.rs of arrow-data 60.1.0 (Apache-2.0).
ghost use Rattle.std.specs.Prelude.{◌≡◌};
ghost use Rattle.image.specs.declared.type_code.Layout.TheVariants.{FixedList};
ghost use Rattle.image.specs.Row.{fixed_list_row};
ghost use Rattle.values.specs.Pair.{equal_rows, nested, PartsIn};

use crate::equal_range;
use values::pair::{Pair, Rows};

// Fixed-size lists without nulls: all their child rows as one range.
#[cycle(rows)]
pub fn equal(pair: &Pair, rows: Rows, depth: usize) -> bool
    requires { PartsIn FixedList pair.now rows depth }
    ensures { result ≡ equal_rows (nested fixed_list_row depth) pair.now rows }
{
    let size = pair.left.p1();
    let items = Rows {
        left: rows.left * size,
        right: rows.right * size,
        count: rows.count * size,
    };
    equal_range(&pair.child(0), items, depth)
}
