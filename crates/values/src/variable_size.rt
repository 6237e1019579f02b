// Text and binary. Translated from src/equal/variable_size.rs of arrow-data 60.1.0 (Apache-2.0).
ghost use Rattle.std.specs.Prelude.{◌≡◌};
ghost use Rattle.image.specs.declared.type_code.Layout.TheVariants.{VariableSize};
ghost use Rattle.image.specs.Row.{variable_row};
ghost use Rattle.values.specs.Pair.{equal_rows, PartsIn};

use crate::lengths::lengths_equal;
use crate::pair::{Pair, Rows};

// Texts without nulls: their lengths, and then all their bytes as one block.
pub fn variable_sized_equal(pair: &Pair, rows: Rows) -> bool
    requires { PartsIn VariableSize pair.now rows 0 }
    ensures { result ≡ equal_rows variable_row pair.now rows }
{
    if !lengths_equal(pair, rows) {
        return false;
    }
    let from = pair.left.offset_at(rows.left);
    let len = pair.left.offset_at(rows.left + rows.count) - from;
    let x = pair.left.buffer_place(1) + from;
    let y = pair.right.buffer_place(1) + pair.right.offset_at(rows.right);
    pair.left.image[x..x + len] == pair.right.image[y..y + len]
}
