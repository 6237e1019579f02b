// Unions. Translated from src/equal/union.rs of arrow-data 60.1.0 (Apache-2.0).
ghost use Rattle.std.specs.Prelude.{◌≡◌, Some, ℕ, ◌<◌, ◌^◌};
ghost use Rattle.image.specs.declared.type_code.Layout.TheVariants.{DenseUnion, SparseUnion};
ghost use Rattle.image.specs.Row.{dense_row, sparse_row};
ghost use Rattle.image.specs.Record.{first_child};
ghost use Rattle.values.specs.Pair.{equal_rows, nested, PartsIn, NamedAt};
ghost use Rattle.equal.specs.Unions.{children_at};

use crate::{equal_range, structure};
use image::bytes::byte;
use values::pair::{Pair, Rows};

// So many rows of a sparse union are at most compared as whole children at once, and so many at least.
const BLOCK: usize = 4096;

const SEVERAL: usize = 8;

// The place that the child which the type ids at places x and y name has among the children of each, where `first` is the
// left's first child; `None` where the ids differ or name no child.
fn named_at(pair: &Pair, first: u32, x: usize, y: usize) -> Option<u32>
    requires { first ≡ first_child pair.now.left.image.now pair.now.left.number }
    ensures named { NamedAt pair.now x y (children_at pair.now result) }
    ensures near { (c : ℕ) → result ≡ Some c → c < 2 ^ 17 }
{
    let id = byte(pair.left.image, x);
    if id != byte(pair.right.image, y) {
        return None;
    }
    let child = pair.left.child_with_id(id)?;
    Some(child - first)
}

// Dense unions: the type ids, and the row of the child that each id names, at its offset.
// Kept: one `Pair` of children, of which a row sets the numbers, here and in `block`: one that is made anew for each row is copied
// in parts, and rows of sparse unions take 1.6 times as long.
#[cycle(rows)]
pub fn dense(pair: &Pair, rows: Rows, depth: usize) -> bool
    requires { PartsIn DenseUnion pair.now rows depth }
    ensures { result ≡ equal_rows (nested dense_row depth) pair.now rows }
{
    let (a, b) = (pair.left, pair.right);
    let ia = a.buffer_place(0);
    let ib = b.buffer_place(0);
    let left = a.numbers(1, 4);
    let right = b.numbers(1, 4);
    let first = pair.child(0);
    let mut child = first;
    for k in 0..rows.count {
        let Some(place) = named_at(
            pair,
            first.left.number,
            ia + (rows.left + k),
            ib + (rows.right + k),
        ) else {
            return false;
        };
        child.left.number = first.left.number + place;
        child.right.number = first.right.number + place;
        let row = Rows {
            left: left.at(rows.left + k),
            right: right.at(rows.right + k),
            count: 1,
        };
        if !equal_range(&child, row, depth) {
            return false;
        }
    }
    true
}

// A block of a sparse union: the type ids, and the row of the child that each id names; the other children do not count.
// Where all rows of all children are equal, those are. Few rows are not tried so, which bounds what unions in unions cost.
#[cycle(rows)]
fn block(pair: &Pair, rows: Rows, depth: usize) -> bool
    requires { PartsIn SparseUnion pair.now rows depth }
    ensures { result ≡ equal_rows (nested sparse_row depth) pair.now rows }
{
    let (a, b) = (pair.left, pair.right);
    let ia = a.buffer_place(0);
    let ib = b.buffer_place(0);
    let n = rows.count;
    if SEVERAL <= n {
        let x = ia + rows.left;
        let y = ib + rows.right;
        if a.image[x..x + n] == b.image[y..y + n] {
            if structure::equal(pair, rows, depth) {
                return true;
            }
        }
    }
    let first = pair.child(0);
    let mut child = first;
    for k in 0..n {
        let Some(place) = named_at(
            pair,
            first.left.number,
            ia + (rows.left + k),
            ib + (rows.right + k),
        ) else {
            return false;
        };
        child.left.number = first.left.number + place;
        child.right.number = first.right.number + place;
        if !equal_range(&child, rows.part(k, 1), depth) {
            return false;
        }
    }
    true
}

// Sparse unions, block by block: only a block whose children are not all equal is compared row by row.
// Kept: no `Rows::each_block`, since a closure that calls a function of the cycle is one of the cycle itself, with a contract
// and a measure of its own: that is no plainer.
#[cycle(rows)]
pub fn sparse(pair: &Pair, rows: Rows, depth: usize) -> bool
    requires { PartsIn SparseUnion pair.now rows depth }
    ensures { result ≡ equal_rows (nested sparse_row depth) pair.now rows }
{
    let n = rows.count;
    for h in 0..n / BLOCK {
        if !block(pair, rows.part(BLOCK * h, BLOCK), depth) {
            return false;
        }
    }
    let k = BLOCK * (n / BLOCK);
    block(pair, rows.part(k, n - k), depth)
}
