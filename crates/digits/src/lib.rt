// Ranges of decimal numbers, compared at fewer digits.
#![tactic(auto)]

pub mod round;

ghost use Rattle.std.specs.Prelude.{◌≡◌, false, ◌+◌, ◌<◌};
ghost use Rattle.image.specs.Record.{max_depth};
ghost use Rattle.image.specs.Digits.{kept_agree, digits_equal, not_digits};
ghost use Rattle.values.specs.Parts.{Sides};
ghost use Rattle.digits.specs.Parts.{NumbersOf, ColumnedOf, agreed};

use crate::round::Power;
use image::bytes::load;
use image::element::Bitmap;
use image::record::Node;
use image::type_code::TypeCode;
use values::leaf::Columns;
use values::pair::{Pair, Rows};
use values::primitive::{chunk_equal, columns_of};
use values::utils::equal_nulls;

// So many rows are first compared as they are.
const CHUNK: usize = 2048;

// The most digits that are dropped.
const MOST_DIGITS: usize = 9;

// The root is neither Decimal32 nor Decimal64, or the digits are too many.
pub fn not_digits(image: &[u8], digits: usize) -> bool
    ensures { result ≡ not_digits image.now digits }
{
    if MOST_DIGITS < digits {
        return true;
    }
    let root = Node::root(image).code();
    root != TypeCode::DECIMAL32 && root != TypeCode::DECIMAL64
}

// Rows of two columns of numbers, and what is read of these once: where the numbers start, how wide they are, and the left null
// mask.
#[derive(Clone, Copy)]
struct Chunk<'a> {
    pair: Pair<'a>,
    rows: Rows,
    columns: Columns,
    bitmap: Option<Bitmap>,
    ghost numbers: { NumbersOf pair rows },
    ghost read: { ColumnedOf pair columns bitmap },
}

// Its methods take it by value: lent, the loop over rows is not compiled once with and once without a null mask, and Decimal32
// with nulls that differ take 1.24 times as long.
impl Chunk<'_> {
    // Row k of each agree once they are divided by the power. Both are null or neither is, so that numbers that are the same
    // agree without a look at the mask or a division.
    fn row_agrees<const W: usize>(self, k: usize, power: Power) -> bool
        requires some { k < self.rows.count }
        requires width { W ≡ self.columns.width }
        ensures { result ≡ kept_agree power.value self.entry.pair.left.image.now self.entry.pair.right.image.now (self.entry.rows.left + k) (self.entry.rows.right + k) }
    {
        let i = self.rows.left + k;
        let j = self.rows.right + k;
        let x = load::<W>(self.pair.left.image, self.columns.left + i * W);
        let y = load::<W>(self.pair.right.image, self.columns.right + j * W);
        if x == y {
            return true;
        }
        if !self.pair.left.is_kept(self.bitmap, i) {
            return true;
        }
        power.numbers_agree(x, y, W)
    }

    // All of them, one by one.
    fn rows_agree<const W: usize>(self, power: Power) -> bool
        requires width { W ≡ self.columns.width }
        ensures { result ≡ agreed power.value self.entry.pair self.entry.rows }
    {
        for k in 0..self.rows.count {
            if !self.row_agrees::<W>(k, power) {
                return false;
            }
        }
        true
    }
}

// A chunk of rows: where they are not the same, number by number, in a loop of its own for each width.
fn chunk_agrees(pair: &Pair, rows: Rows, power: Power) -> bool
    requires { NumbersOf pair.now rows }
    ensures { result ≡ agreed power.value pair.now rows }
{
    if chunk_equal(pair, rows) {
        return true;
    }
    let chunk = Chunk {
        pair: *pair,
        rows: rows,
        columns: columns_of(pair),
        bitmap: pair.left.bitmap(),
    };
    if chunk.columns.width == 4 {
        return chunk.rows_agree::<4>(power);
    }
    chunk.rows_agree::<8>(power)
}

// Two ranges of rows of two tables agree in turn, once so many digits are dropped.
// Kept: two images and no `Pair`, which would have to be known to be one of roots.
pub fn digits_equal(a: &[u8], b: &[u8], rows: Rows, digits: usize) -> bool
    requires sides { Sides a.now b.now 0 0 rows.left rows.right rows.count max_depth }
    requires digits_fit { not_digits a.now digits ≡ false }
    ensures { result ≡ digits_equal digits a.now b.now rows.left rows.right rows.count }
{
    let pair = Pair::roots(a, b);
    if !equal_nulls(&pair, rows) {
        return false;
    }
    let power = Power::new(digits);
    rows.each_block::<CHUNK, _>(|part| chunk_agrees(&pair, part, power))
}
