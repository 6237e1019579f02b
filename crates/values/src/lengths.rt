// Lengths of texts and lists. Translated from `lengths_equal` of src/equal/list.rs of arrow-data 60.1.0 (Apache-2.0).
ghost use Rattle.std.specs.Prelude.{◌≡◌, ◌<◌, ◌≤◌, ◌^◌};
ghost use Rattle.image.specs.Of.{◌of◌};
ghost use Rattle.image.specs.Element.{element_width};
ghost use Rattle.values.specs.Pair.{same_spans, same_distances, offsets_from, SpansOf, AboveOf};

use crate::pair::{Pair, Rows};
use crate::primitive::elements_equal;
use image::bytes::load;
use image::record::Node;

// Offsets are compared so many at a time.
const BLOCK: usize = 64;

// The offsets of a node: where they start, the number of the first that is looked at, and that offset itself.
#[derive(Clone, Copy)]
pub struct Offsets<'a> {
    pub bytes: &'a [u8],
    pub place: usize,
    pub first: usize,
    pub base: usize,
}

impl<'a> Offsets<'a> {
    // Those of a node, looked at from element i on.
    fn new(node: Node<'a>, i: usize) -> Offsets<'a>
        requires { ((element_width of node) ≤ 8) × (i < 2 ^ 40) }
        ensures { result ≡ offsets_from node.entry i }
    {
        Offsets {
            bytes: node.image,
            place: node.buffer_place(0),
            first: i,
            base: node.offset_at(i),
        }
    }
}

// n offsets of W bytes, from the one numbered k on, stand in turn equally far above the first. There is no way out of the
// loop.
fn distance_block<const W: usize>(left: Offsets, right: Offsets, k: usize, n: usize) -> bool
    requires { AboveOf W left k n × AboveOf W right k n }
    ensures { result ≡ same_distances W left.entry right.entry k n }
{
    let mut same = true;
    for h in 0..n {
        let u = load::<W>(left.bytes, left.place + (left.first + k + h) * W);
        let v = load::<W>(right.bytes, right.place + (right.first + k + h) * W);
        same = same & (u - left.base == v - right.base);
    }
    same
}

// The same of any n, block by block.
// Kept: no `Rows::each_block`, since a closure inside a function over W needs a contract of its own: that is no plainer.
fn distances_equal<const W: usize>(left: Offsets, right: Offsets, n: usize) -> bool
    requires { AboveOf W left 0 n × AboveOf W right 0 n }
    ensures { result ≡ same_distances W left.entry right.entry 0 n }
{
    for h in 0..n / BLOCK {
        if !distance_block::<W>(left, right, BLOCK * h, BLOCK) {
            return false;
        }
    }
    let k = BLOCK * (n / BLOCK);
    distance_block::<W>(left, right, k, n % BLOCK)
}

// The texts or lists at the elements of two ranges are equally long, in turn. Where the offsets are the same, so are the
// lengths; else each offset stands as far above the first on both sides.
pub fn lengths_equal(pair: &Pair, rows: Rows) -> bool
    requires { SpansOf pair.now rows }
    ensures { result ≡ same_spans pair.now rows }
{
    let offsets = Rows {
        left: rows.left,
        right: rows.right,
        count: rows.count + 1,
    };
    if elements_equal(pair, offsets) {
        return true;
    }
    let left = Offsets::new(pair.left, rows.left);
    let right = Offsets::new(pair.right, rows.right);
    if pair.left.element_width() == 4 {
        return distances_equal::<4>(left, right, rows.count + 1);
    }
    distances_equal::<8>(left, right, rows.count + 1)
}
