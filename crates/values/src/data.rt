// Null masks of ranges of rows. Translated from src/data.rs of arrow-data 60.1.0 (Apache-2.0).
ghost use Rattle.std.specs.Prelude.{◌≡◌, not, ◌+◌, ◌<◌, ◌^◌};
ghost use Rattle.image.specs.Ranges.{every};
ghost use Rattle.image.specs.Element.{valid};
ghost use Rattle.values.specs.Bits.{Leading};
ghost use Rattle.values.specs.Pair.{ValidityOf};

use crate::bits::Bits;
use image::record::Node;

// The bits of a node's bitmap from row i on, where it has one.
pub fn validity<'a>(node: Node<'a>, i: usize) -> Option<Bits<'a>>
    requires { i < 2 ^ 34 }
    ensures { ValidityOf node.entry i result }
{
    if !node.has_bitmap() {
        return None;
    }
    Some(Bits {
        bytes: node.image,
        place: node.bitmap_place(),
        first: node.first_bit() + i,
    })
}

// How many of n rows from row i on are not null, up to the first that is.
pub fn valid_rows(node: Node, i: usize, n: usize) -> usize
    requires { i + n < 2 ^ 34 }
    ensures { Leading (valid node.entry.image.now node.entry.number) i n result }
{
    match validity(node, i) {
        None => n,
        Some(bits) => bits.leading_set(n),
    }
}

// One of n rows from row i on is null.
pub fn contains_nulls(node: Node, i: usize, n: usize) -> bool
    requires { i + n < 2 ^ 34 }
    ensures { result ≡ not (every (valid node.entry.image.now node.entry.number) i n) }
{
    valid_rows(node, i, n) != n
}
