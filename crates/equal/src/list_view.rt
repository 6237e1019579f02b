// List views. Translated from src/equal/list_view.rs of arrow-data 60.1.0 (Apache-2.0).
ghost use Rattle.std.specs.Prelude.{◌≡◌};
ghost use Rattle.image.specs.declared.type_code.Layout.TheVariants.{ListView};
ghost use Rattle.image.specs.Row.{list_view_row};
ghost use Rattle.values.specs.Pair.{equal_rows, nested, PartsIn};

use crate::equal_range;
use values::pair::{Pair, Rows};

// List views without nulls: their sizes and child rows, view by view.
#[cycle(rows)]
pub fn equal(pair: &Pair, rows: Rows, depth: usize) -> bool
    requires { PartsIn ListView pair.now rows depth }
    ensures { result ≡ equal_rows (nested list_view_row depth) pair.now rows }
{
    let width = pair.left.element_width();
    let left = pair.left.numbers(0, width);
    let right = pair.right.numbers(0, width);
    let left_sizes = pair.left.numbers(1, width);
    let right_sizes = pair.right.numbers(1, width);
    let child = pair.child(0);
    for k in 0..rows.count {
        let size = left_sizes.at(rows.left + k);
        if size != right_sizes.at(rows.right + k) {
            return false;
        }
        let items = Rows {
            left: left.at(rows.left + k),
            right: right.at(rows.right + k),
            count: size,
        };
        if !equal_range(&child, items, depth) {
            return false;
        }
    }
    true
}
