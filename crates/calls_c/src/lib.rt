// Further calls for a host written in C, each answering with one number. host/editions_calls.h says what they answer.
#![tactic(auto)]

ghost use Rattle.std.specs.Prelude.{◌≡◌};
ghost use Rattle.answers.specs.Answers.{compare_range_answer, difference_answer, digits_answer, map_names_answer, build_answer, build_output};
ghost use Rattle.answers.specs.Numbers.{ranges_compared_numbers, difference_numbers, digits_numbers, map_names_numbers, built_numbers, packed};

use answers::numbers::pack;
use api::{build, compare_digits, compare_range, first_difference, map_names};

// Whether `count` rows of two tables from their starts on are equal.
#[unsafe(no_mangle)]
pub extern "C" fn editions_compare_range(
    left: &[u8],
    right: &[u8],
    left_start: u32,
    right_start: u32,
    count: u32,
) -> u64
    ensures { result ≡ packed (ranges_compared_numbers (compare_range_answer left.now right.now left_start right_start count)) }
{
    let i = left_start as usize;
    let j = right_start as usize;
    let n = count as usize;
    pack(compare_range(left, right, i, j, n))
}

// The first of these rows that is not equal.
// Kept: C calls each of these by a name of its own, with arguments of C's types.
#[unsafe(no_mangle)]
pub extern "C" fn editions_first_difference(
    left: &[u8],
    right: &[u8],
    left_start: u32,
    right_start: u32,
    count: u32,
) -> u64
    ensures { result ≡ packed (difference_numbers (difference_answer left.now right.now left_start right_start count)) }
{
    let i = left_start as usize;
    let j = right_start as usize;
    let n = count as usize;
    pack(first_difference(left, right, i, j, n))
}

// Whether these rows agree once so many digits are dropped.
#[unsafe(no_mangle)]
pub extern "C" fn editions_compare_digits(
    left: &[u8],
    right: &[u8],
    left_start: u32,
    right_start: u32,
    count: u32,
    digits: u32,
) -> u64
    ensures { result ≡ packed (digits_numbers (digits_answer left.now right.now left_start right_start count digits)) }
{
    let i = left_start as usize;
    let j = right_start as usize;
    let n = count as usize;
    let d = digits as usize;
    pack(compare_digits(left, right, i, j, n, d))
}

// Whether every Map's entries are named `entries` and its fields `key` and `value`.
#[unsafe(no_mangle)]
pub extern "C" fn editions_map_names(image: &[u8]) -> u64
    ensures { result ≡ packed (map_names_numbers (map_names_answer image.now)) }
{
    pack(map_names(image))
}

// The table of `count` rows of the type that an image has, which `rows` is by the row rule; its image goes to the front of `out`.
#[unsafe(no_mangle)]
pub extern "C" fn editions_build(image: &[u8], count: u32, rows: &[u8], out: &mut [u8]) -> u64
    ensures value { result ≡ packed (built_numbers (build_answer image.now count rows.now out.old)) }
    ensures out_after { out.new ≡ build_output image.now count rows.now out.old }
{
    pack(build(image, count as usize, rows, out))
}
