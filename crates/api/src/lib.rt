// The public calls: check an image, compare two tables, compare ranges of their rows, find the first row in which ranges
// differ, compare ranges of decimal numbers at fewer digits, ask for the names of Maps, write rows, build a table from written
// rows. Each checks its images itself.
#![tactic(auto)]

ghost use Rattle.std.specs.Prelude.{◌≡◌, Ok};
ghost use Rattle.image.specs.Equality.{tables_equal};
ghost use Rattle.image.specs.Faults.{check_image};
ghost use Rattle.answers.specs.Answers.{compare_answer, paired_of, compare_range_answer, difference_answer, digits_answer, map_names_answer, write_answer, write_output, build_answer, build_output, exceeds, side_checked};
ghost use Rattle.api.specs.Bounds.{rows_within};

use accepted::column::KeptRuns;
use answers::{BuildRefusal, DigitsRefusal, RangeRefusal, SideFault, WriteRefusal};
use builder::is_readable;
use digits::{digits_equal, not_digits};
use equal::rows_equal;
use image::answer::{Fault, Side};
use image::record::{MAX_DEPTH, MOST_NODES, Node};
use names::maps_named;
use rows::measure::measure_rows;
use rows::output::Output;
use rows::write::write_rows;
use values::pair::Rows;
use values::types::same_types;
use values::utils::base_equal;

// The image check.
pub fn check(image: &[u8]) -> Result<(), Fault>
    ensures { result ≡ check_image image.now }
{
    validate::check(image)
}

// Whether two tables are equal, both accepted: their types and lengths agree, and every row.
fn compare_accepted(left: &[u8], right: &[u8]) -> bool
    requires { (check_image left.now ≡ Ok tt) × (check_image right.now ≡ Ok tt) }
    ensures { result ≡ tables_equal left.now right.now }
{
    let rows = Node::root(left).length();
    let whole = Rows {
        left: 0,
        right: 0,
        count: rows,
    };
    base_equal(left, right) && rows_equal(left, right, whole)
}

// Whether two tables are equal, the left one accepted.
// Kept: `let .. else`, here and below, as document 01 has it in this place.
fn compare_right(left: &[u8], right: &[u8]) -> Result<bool, SideFault>
    requires { check_image left.now ≡ Ok tt }
    ensures { result ≡ compare_answer left.now right.now }
{
    let checked = check(right);
    let Err(fault) = checked else {
        return Ok(compare_accepted(left, right));
    };
    Err(SideFault {
        side: Side::Right,
        fault: fault,
    })
}

// Whether two tables are equal. A refused check ends the comparison with its own answer.
pub fn compare(left: &[u8], right: &[u8]) -> Result<bool, SideFault>
    ensures { result ≡ compare_answer left.now right.now }
{
    let checked = check(left);
    let Err(fault) = checked else {
        return compare_right(left, right);
    };
    Err(SideFault {
        side: Side::Left,
        fault: fault,
    })
}

// The check of the image of a side.
fn check_side(image: &[u8], side: Side) -> Result<(), SideFault>
    ensures { result ≡ side_checked side image.now }
{
    check(image).map_err(|fault| SideFault {
        side: side,
        fault: fault,
    })
}

// What two images are: one of them refused, left before right, or of unequal types, or neither.
fn paired(left: &[u8], right: &[u8]) -> Result<(), RangeRefusal>
    ensures { result ≡ paired_of left.now right.now }
{
    check_side(left, Side::Left)?;
    check_side(right, Side::Right)?;
    if !same_types(left, right) {
        return Err(RangeRefusal::UnequalTypes);
    }
    Ok(())
}

// start + count exceeds the table's length.
fn out_of_range(image: &[u8], start: usize, count: usize) -> bool
    ensures { result ≡ exceeds image.now start count }
{
    let rows = Node::root(image).length();
    rows < start || rows - start < count
}

// `count` rows of each of two tables from their starts on, where they lie within.
// Kept: starts and a count by themselves, here and in the calls that are given them: the callers of a public call have numbers,
// and `Rows` is a type of the comparison alone. They become `Rows` here.
fn rows_within(
    left: &[u8],
    right: &[u8],
    left_start: usize,
    right_start: usize,
    count: usize,
) -> Result<Rows, RangeRefusal>
    ensures { result ≡ rows_within left.now right.now left_start right_start count }
{
    if out_of_range(left, left_start, count) {
        return Err(RangeRefusal::OutOfRange(Side::Left));
    }
    if out_of_range(right, right_start, count) {
        return Err(RangeRefusal::OutOfRange(Side::Right));
    }
    Ok(Rows {
        left: left_start,
        right: right_start,
        count: count,
    })
}

// Whether `count` rows of two tables from their starts on are equal.
pub fn compare_range(
    left: &[u8],
    right: &[u8],
    left_start: usize,
    right_start: usize,
    count: usize,
) -> Result<bool, RangeRefusal>
    ensures { result ≡ compare_range_answer left.now right.now left_start right_start count }
{
    paired(left, right)?;
    let rows = rows_within(left, right, left_start, right_start, count)?;
    Ok(rows_equal(left, right, rows))
}

// The first of `count` rows of two tables from their starts on that is not equal.
pub fn first_difference(
    left: &[u8],
    right: &[u8],
    left_start: usize,
    right_start: usize,
    count: usize,
) -> Result<Option<usize>, RangeRefusal>
    ensures { result ≡ difference_answer left.now right.now left_start right_start count }
{
    paired(left, right)?;
    let rows = rows_within(left, right, left_start, right_start, count)?;
    Ok(difference::first_difference(left, right, rows))
}

// Whether `count` rows of two tables of decimal numbers from their starts on agree, once so many digits are dropped.
pub fn compare_digits(
    left: &[u8],
    right: &[u8],
    left_start: usize,
    right_start: usize,
    count: usize,
    digits: usize,
) -> Result<bool, DigitsRefusal>
    ensures { result ≡ digits_answer left.now right.now left_start right_start count digits }
{
    paired(left, right)?;
    if not_digits(left, digits) {
        return Err(DigitsRefusal::NotDigits);
    }
    let rows = rows_within(left, right, left_start, right_start, count)?;
    Ok(digits_equal(left, right, rows, digits))
}

// Whether every Map's entries are named `entries` and its fields `key` and `value`.
pub fn map_names(image: &[u8]) -> Result<bool, Fault>
    ensures { result ≡ map_names_answer image.now }
{
    check(image)?;
    Ok(maps_named(image))
}

// Writes `count` rows of a table from a start on to the front of `out`. A refusal leaves `out` as it was.
pub fn write(
    image: &[u8],
    start: usize,
    count: usize,
    out: &mut [u8],
) -> Result<usize, WriteRefusal>
    ensures value { result ≡ write_answer image.now start count out.old }
    ensures out_after { out.new ≡ write_output image.now start count out.old }
{
    check(image)?;
    if out_of_range(image, start, count) {
        return Err(WriteRefusal::OutOfRange);
    }
    let room = out.len();
    let mut runs: KeptRuns = [None; MOST_NODES];
    let root = Node::root(image).number;
    let Some(rest) = measure_rows(image, root, start, count, MAX_DEPTH, &mut runs, room) else {
        return Err(WriteRefusal::TooLong);
    };
    let mut rows = Output { bytes: out, at: 0 };
    write_rows(image, root, start, count, MAX_DEPTH, &mut runs, &mut rows);
    Ok(rows.at)
}

// Builds the table of `count` rows of the type that an image has, which `rows` is by the row rule; its image goes to the front
// of `out`. A refusal leaves `out` as it was.
pub fn build(image: &[u8], count: usize, rows: &[u8], out: &mut [u8]) -> Result<usize, BuildRefusal>
    ensures value { result ≡ build_answer image.now count rows.now out.old }
    ensures out_after { out.new ≡ build_output image.now count rows.now out.old }
{
    check(image)?;
    if !is_readable(image) {
        return Err(BuildRefusal::Unreadable);
    }
    builder::build(image, count, rows, out)
}
