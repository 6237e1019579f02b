// Rows of two nodes without bitmaps and without children, one pair at a time: what the nodes' records say is read once.
ghost use Rattle.std.specs.Prelude.{◌≡◌, ℕ, suc};
ghost use Rattle.image.specs.Row.{row_at};
ghost use Rattle.accepted.specs.Parts.{Side};
ghost use Rattle.values.specs.Pair.{equal_rows, one_row, SidesOf, LeavesOf, LeavesRead};

use crate::pair::Pair;
use crate::primitive::columns_of;
use image::bytes::Numbers;
use image::type_code::{Layout, TypeCode};

// How wide the elements of two nodes are, and where those of row 0 stand.
#[derive(Clone, Copy)]
pub struct Columns {
    pub width: usize,
    pub left: usize,
    pub right: usize,
}

// What is read once of two nodes: of fixed-width values where they stand, of texts where their offsets and their bytes do.
#[derive(Clone, Copy)]
pub enum Leaves<'a> {
    Fixed(Columns),
    Texts {
        left_offsets: Numbers<'a>,
        right_offsets: Numbers<'a>,
        left: usize,
        right: usize,
    },
}

// Two nodes taken apart: `None` where they have bitmaps or their layout is another.
pub fn leaves_of<'a>(pair: Pair<'a>) -> Option<Leaves<'a>>
    requires { Side pair.left.image.now pair.left.number 0 0 × Side pair.right.image.now pair.right.number 0 0 }
    ensures { LeavesOf pair.entry result }
{
    let left = pair.left;
    let right = pair.right;
    if left.code() != right.code() {
        return None;
    }
    if left.has_bitmap() {
        return None;
    }
    if right.has_bitmap() {
        return None;
    }
    let width = left.element_width();
    if right.element_width() != width {
        return None;
    }
    let layout = left.layout();
    match layout {
        Layout::FixedWidth => Some(Leaves::Fixed(columns_of(&pair))),
        Layout::VariableSize => Some(Leaves::Texts {
            left_offsets: left.row_numbers(width),
            right_offsets: right.row_numbers(width),
            left: left.buffer_place(1),
            right: right.buffer_place(1),
        }),
        _ => None,
    }
}

// Row s of one node and row t of another are equal: fixed-width values by their bytes, texts by length and bytes.
pub fn leaf_equal(pair: &Pair, leaves: &Leaves, s: usize, t: usize) -> bool
    requires sides { SidesOf pair.now (one_row s t) 1 }
    requires leaves { LeavesRead pair.now leaves.now }
    ensures { (depth : ℕ) → result ≡ equal_rows (row_at (suc depth)) pair.now (one_row s t) }
{
    let a = pair.left.image;
    let b = pair.right.image;
    match leaves {
        Leaves::Fixed(columns) => {
            let width = columns.width;
            let x = columns.left + s * width;
            let y = columns.right + t * width;
            a[x..x + width] == b[y..y + width]
        }
        Leaves::Texts {
            left_offsets,
            right_offsets,
            left,
            right,
        } => {
            let from = left_offsets.inside(s);
            let len = left_offsets.inside(s + 1) - from;
            let start = right_offsets.inside(t);
            if right_offsets.inside(t + 1) - start != len {
                return false;
            }
            let x = left + from;
            let y = right + start;
            a[x..x + len] == b[y..y + len]
        }
    }
}
