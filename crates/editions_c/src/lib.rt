// What a host written in C calls: check, compare and write, each answering with one number. host/editions.h says how the
// number is taken apart.
#![tactic(auto)]

ghost use Rattle.std.specs.Prelude.{◌≡◌, ◌++◌, min, length};
ghost use Rattle.image.specs.Faults.{check_image};
ghost use Rattle.answers.specs.Answers.{compare_answer, write_answer, write_output};
ghost use Rattle.answers.specs.Numbers.{checked_numbers, compared_numbers, written_numbers, packed};
ghost use Rattle.editions_c.specs.Outputs.{most, used, unused};

use answers::numbers::pack;
use api::{check, compare, write};

// The longest output whose length 56 bits can give. No machine lends a longer buffer: addresses have fewer bits.
const LONGEST_OUTPUT: usize = 72057594037927935;

// The image check.
#[unsafe(no_mangle)]
pub extern "C" fn editions_check(image: &[u8]) -> u64
    ensures { result ≡ packed (checked_numbers (check_image image.now)) }
{
    pack(check(image))
}

// Whether two tables are equal.
#[unsafe(no_mangle)]
pub extern "C" fn editions_compare(left: &[u8], right: &[u8]) -> u64
    ensures { result ≡ packed (compared_numbers (compare_answer left.now right.now)) }
{
    pack(compare(left, right))
}

// How much of a buffer is used.
fn used_length(out: &[u8]) -> usize
    ensures { result ≡ min (length out.now) most }
{
    out.len().min(LONGEST_OUTPUT)
}

// Rows of a table, written to the front of `out`.
#[unsafe(no_mangle)]
pub extern "C" fn editions_write(image: &[u8], start: u32, count: u32, out: &mut [u8]) -> u64
    ensures value { result ≡ packed (written_numbers (write_answer image.now start count (used out.old))) }
    ensures out_after { out.new ≡ write_output image.now start count (used out.old) ++ unused out.old }
{
    let end = used_length(out);
    pack(write(image, start as usize, count as usize, &mut out[..end]))
}
