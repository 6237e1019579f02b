// Translated from src/equal/boolean.rs of arrow-data 60.1.0 (Apache-2.0).
ghost use Rattle.std.specs.Prelude.{◌≡◌, ◌<◌, ◌^◌, ltb};
ghost use Rattle.std.specs.Bool.{then_some};
ghost use Rattle.image.specs.declared.type_code.Layout.TheVariants.{Boolean};
ghost use Rattle.image.specs.Row.{boolean_row};
ghost use Rattle.values.specs.Pair.{equal_rows, first_boolean, bits_from, PartsIn};

use crate::bits::{Bits, first_unequal_bit};
use crate::pair::{Pair, Rows};
use image::record::Node;

// The bits of a node's first buffer, from bit i on.
fn bits_from<'a>(node: Node<'a>, i: usize) -> Bits<'a>
    ensures same { result ≡ bits_from node.entry i }
    ensures near { result.place < 2 ^ 32 }
{
    Bits {
        bytes: node.image,
        place: node.buffer_place(0),
        first: i,
    }
}

// Of the pairs of Booleans without nulls the number of the first that are not the same, if there is one: by their bits.
pub fn first_unequal_boolean(pair: &Pair, rows: Rows) -> Option<usize>
    requires { PartsIn Boolean pair.now rows 0 }
    ensures { result ≡ then_some (ltb (first_boolean pair.now rows) rows.count) (first_boolean pair.now rows) }
{
    let left = bits_from(pair.left, rows.left);
    let right = bits_from(pair.right, rows.right);
    first_unequal_bit(left, right, rows.count)
}

// Booleans without nulls: none is unequal.
pub fn boolean_equal(pair: &Pair, rows: Rows) -> bool
    requires { PartsIn Boolean pair.now rows 0 }
    ensures { result ≡ equal_rows boolean_row pair.now rows }
{
    first_unequal_boolean(pair, rows).is_none()
}
