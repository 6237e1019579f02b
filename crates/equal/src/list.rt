// Lists and Maps. Translated from src/equal/list.rs of arrow-data 60.1.0 (Apache-2.0).
ghost use Rattle.std.specs.Prelude.{◌≡◌};
ghost use Rattle.image.specs.declared.type_code.Layout.TheVariants.{List as Lists};
ghost use Rattle.image.specs.Row.{list_row};
ghost use Rattle.values.specs.Pair.{equal_rows, nested, PartsIn};

use crate::equal_range;
use values::lengths::lengths_equal;
use values::pair::{Pair, Rows};

// Lists without nulls: their lengths, and then all their child rows as one range.
#[cycle(rows)]
pub fn equal(pair: &Pair, rows: Rows, depth: usize) -> bool
    requires { PartsIn Lists pair.now rows depth }
    ensures { result ≡ equal_rows (nested list_row depth) pair.now rows }
{
    if !lengths_equal(pair, rows) {
        return false;
    }
    let from = pair.left.offset_at(rows.left);
    let to = pair.left.offset_at(rows.left + rows.count);
    let start = pair.right.offset_at(rows.right);
    let items = Rows {
        left: from,
        right: start,
        count: to - from,
    };
    equal_range(&pair.child(0), items, depth)
}
