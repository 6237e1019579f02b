// Fixed-width values. Translated from src/equal/primitive.rs of arrow-data 60.1.0 (Apache-2.0); the element width stands
// for the generic type.
ghost use Rattle.std.specs.Prelude.{◌≡◌, true, ◌+◌, ◌*◌, ◌≤◌, length};
ghost use Rattle.image.specs.declared.type_code.Layout.TheVariants.{FixedWidth};
ghost use Rattle.image.specs.Of.{◌of◌};
ghost use Rattle.image.specs.Bytes.{bytes_at};
ghost use Rattle.image.specs.Element.{element_width, element_place};
ghost use Rattle.image.specs.Row.{fixed_row};
ghost use Rattle.values.specs.Pairs.{all, valid_same, masked_row};
ghost use Rattle.values.specs.Pair.{equal_rows, from_offset, PartsIn, MaskedOf, BlocksOf, ColumnsOf, OneWidth, BitsOf};

use crate::bits::Bits;
use crate::data::validity;
use crate::leaf::Columns;
use crate::pair::{Pair, Rows};
use crate::utils::number_same;
use image::record::Node;

// Rows with nulls are compared so many at a time, as one block of bytes, and where the blocks differ so many as a word of
// the null mask has bits.
const CHUNK: usize = 1024;

const WORD: usize = 64;

// The bytes of n elements of a node from element j on. They are part of what calls this: a node is lent in memory else, for each row.
#[inline(always)]
fn elements<'a>(node: Node<'a>, j: usize, n: usize) -> &'a [u8]
    requires { (element_place of node) j + n * (element_width of node) ≤ length node.image.now }
    ensures { result.now ≡ bytes_at node.entry.image.now (element_place node.entry.image.now node.entry.number j) (n * element_width node.entry.image.now node.entry.number) }
{
    let width = node.element_width();
    let at = node.buffer_place(0) + j * width;
    &node.image[at..at + n * width]
}

// The bytes of two ranges of elements are the same, as one block.
pub fn elements_equal(pair: &Pair, rows: Rows) -> bool
    requires { BlocksOf pair.now rows }
    ensures { result ≡ equal_rows fixed_row pair.now rows }
{
    elements(pair.left, rows.left, rows.count) == elements(pair.right, rows.right, rows.count)
}

// Elements without nulls: their bytes.
pub fn primitive_equal(pair: &Pair, rows: Rows) -> bool
    requires { PartsIn FixedWidth pair.now rows 0 }
    ensures { result ≡ equal_rows fixed_row pair.now rows }
{
    elements_equal(pair, rows)
}

// The bytes of two ranges of rows are the same, those under nulls too.
// Kept: pair and rows, here and in the functions below that ask for `MaskedOf` of them, and no struct that knows it as a ghost
// field. Tried: the closures over blocks make the struct of each part, and one that does needs clauses of its own, which say
// the ghost field's fact again, and in `words_equal` all that `word_equal` asks of count, columns and mask.
fn block_equal(pair: &Pair, rows: Rows) -> bool
    requires { MaskedOf FixedWidth pair.now rows }
    ensures { result ≡ equal_rows fixed_row pair.now (from_offset pair.now rows) }
{
    elements_equal(pair, pair.elements(rows))
}

// Of n elements of W bytes, at most 64, those whose bit is set are the same. There is no way out of the loop, and its end is
// said to be at most 64 for the compiler, which then compares more of them at once.
fn valid_same<const W: usize>(x: &[u8], y: &[u8], bits: usize, n: usize) -> bool
    requires { (W ≤ 16) × (n ≤ 64) × (n * W ≤ length x.now) × (n * W ≤ length y.now) }
    ensures { result ≡ all (valid_same bits x.now y.now W) 0 0 n }
{
    let mut same = true;
    for h in 0..n.min(WORD) {
        let null = (bits >> h) % 2 != 1;
        same = same & (null | number_same::<W>(x, y, h * W, h * W));
    }
    same
}

// The same of elements of any width.
fn valid_bytes(x: &[u8], y: &[u8], w: usize, bits: usize, n: usize) -> bool
    requires { (n ≤ 64) × (n * w ≤ length x.now) × (n * w ≤ length y.now) }
    ensures { result ≡ all (valid_same bits x.now y.now w) 0 0 n }
{
    for h in 0..n {
        if (bits >> h) % 2 == 1 {
            if x[h * w..h * w + w] != y[h * w..h * w + w] {
                return false;
            }
        }
    }
    true
}

// The same, with a loop of its own for each width up to 16.
// Kept: a match on a number: each arm names a width that is known where the loop is compiled.
fn valid_equal(x: &[u8], y: &[u8], w: usize, bits: usize, n: usize) -> bool
    requires { (n ≤ 64) × (n * w ≤ length x.now) × (n * w ≤ length y.now) }
    ensures { result ≡ all (valid_same bits x.now y.now w) 0 0 n }
{
    match w {
        1 => valid_same::<1>(x, y, bits, n),
        2 => valid_same::<2>(x, y, bits, n),
        3 => valid_same::<3>(x, y, bits, n),
        4 => valid_same::<4>(x, y, bits, n),
        5 => valid_same::<5>(x, y, bits, n),
        6 => valid_same::<6>(x, y, bits, n),
        7 => valid_same::<7>(x, y, bits, n),
        8 => valid_same::<8>(x, y, bits, n),
        9 => valid_same::<9>(x, y, bits, n),
        10 => valid_same::<10>(x, y, bits, n),
        11 => valid_same::<11>(x, y, bits, n),
        12 => valid_same::<12>(x, y, bits, n),
        13 => valid_same::<13>(x, y, bits, n),
        14 => valid_same::<14>(x, y, bits, n),
        15 => valid_same::<15>(x, y, bits, n),
        16 => valid_same::<16>(x, y, bits, n),
        _ => valid_bytes(x, y, w, bits, n),
    }
}

// What is read once of two nodes: how wide their elements are, and where those of row 0 stand.
pub fn columns_of(pair: &Pair) -> Columns
    requires { OneWidth pair.now }
    ensures { ColumnsOf pair.now result }
{
    let width = pair.left.element_width();
    Columns {
        width: width,
        left: pair.left.first_place(width),
        right: pair.right.first_place(width),
    }
}

// At most 64 rows, of which those are not null whose bit is set in the left null mask.
fn word_equal(pair: &Pair, columns: Columns, mask: Bits, rows: Rows) -> bool
    requires masked { (rows.count ≤ 64) × MaskedOf FixedWidth pair.now rows }
    requires columns { ColumnsOf pair.now columns }
    requires mask { BitsOf pair.now.left 0 mask }
    ensures { result ≡ equal_rows (masked_row fixed_row) pair.now rows }
{
    let width = columns.width;
    let size = rows.count * width;
    let x = columns.left + rows.left * width;
    let y = columns.right + rows.right * width;
    valid_equal(
        &pair.left.image[x..x + size],
        &pair.right.image[y..y + size],
        width,
        mask.word(rows.left),
        rows.count,
    )
}

// Rows of which some are null: 64 at a time, beside the left null mask.
fn words_equal(pair: &Pair, mask: Bits, rows: Rows) -> bool
    requires masked { MaskedOf FixedWidth pair.now rows }
    requires mask { BitsOf pair.now.left 0 mask }
    ensures { result ≡ equal_rows (masked_row fixed_row) pair.now rows }
{
    let columns = columns_of(pair);
    rows.each_block::<WORD, _>(|part| word_equal(pair, columns, mask, part))
}

// A chunk of rows: where not all bytes are the same, those of the rows that are not null.
pub fn chunk_equal(pair: &Pair, rows: Rows) -> bool
    requires { MaskedOf FixedWidth pair.now rows }
    ensures { result ≡ equal_rows (masked_row fixed_row) pair.now rows }
{
    if block_equal(pair, rows) {
        return true;
    }
    match validity(pair.left, 0) {
        None => false,
        Some(mask) => words_equal(pair, mask, rows),
    }
}

// Rows with nulls, where the null masks agree: chunk by chunk. Only one null mask is looked at, for that reason.
pub fn masked_equal(pair: &Pair, rows: Rows) -> bool
    requires { MaskedOf FixedWidth pair.now rows }
    ensures { result ≡ equal_rows (masked_row fixed_row) pair.now rows }
{
    rows.each_block::<CHUNK, _>(|part| chunk_equal(pair, part))
}
