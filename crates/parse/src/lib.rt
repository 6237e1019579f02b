// Whether a string is rows of a type by the row rule, in one scan of the string. Beside it each node's spans are added up:
// how far the offsets of its rows go on in all.
#![tactic(auto)]

pub mod leaf;
pub mod scan;

ghost use Rattle.std.specs.Prelude.{◌≡◌, true, replicate, Ok};
ghost use Rattle.image.specs.Faults.{check_image};
ghost use Rattle.image.specs.Parse.{readable, rows_in};
ghost use Rattle.parse.specs.Answer.{are_rows, Spanned};

use crate::leaf::Scan;
use image::record::{MAX_DEPTH, Node};

// Whether the string b is so many rows of the type that the image has, and nothing more. Where it is, entry j of spans is
// how far the offsets of node j go on.
pub fn is_rows(image: &[u8], count: usize, b: &[u8], spans: &mut [usize]) -> bool
    requires accepted { (check_image image.now ≡ Ok tt) × (readable image.now ≡ true) }
    requires spans { spans.old ≡ replicate 256 0 }
    ensures value { result ≡ are_rows (rows_in image.now count b.now) }
    ensures spanned { Spanned image.now (rows_in image.now count b.now) spans.new }
{
    let root = Node::root(image);
    let mut scan = Scan { text: b, spans };
    match scan.rows(root, MAX_DEPTH, count) {
        Some(_) => scan.text.is_empty(),
        None => false,
    }
}
