// The image check: faults 10 to 19, the lowest number first and among nodes the lowest. The rules of a number are asked
// only where no node has a lower one, so they may rest on what the lower ones say.
#![tactic(auto)]

pub mod buffers;
pub mod children;
pub mod codes;
pub mod names;
pub mod offsets;
mod rise;
pub mod rows;
pub mod texts;
pub mod tree;

ghost use Rattle.std.specs.Prelude.{◌≡◌, ◌<◌, ◌≤◌, ◌^◌};
ghost use Rattle.image.specs.Of.{◌of◌};
ghost use Rattle.image.specs.Record.{node_count};
ghost use Rattle.image.specs.Faults.{fault10, fault, first_faulty, check_image};
ghost use Rattle.laws.specs.Accepted.{NoneBelow};
ghost use Rattle.validate.specs.Walks.{FirstFaulty};

use buffers::{fault_14, fault_15};
use children::fault_16;
use codes::fault_11;
use image::answer::Fault;
use image::record::{HEADER_SIZE, LONGEST_IMAGE, MOST_NODES, buffer_total, node_count, tables_end};
use names::fault_13;
use offsets::fault_17;
use rows::fault_18;
use texts::fault_19;
use tree::{Walk, fault_12};

const MOST_BUFFERS: u32 = 1024;

// The number of the fault that belongs to the whole image, those of the faults that belong to a node, and the end of the list.
// Kept: numbers and no enum, here and in what stands below: the documents name the faults by them, they go from one to the
// next in order, and hosts and sessions are answered with them.
const IMAGE_NUMBER: u8 = 10;

const FIRST_NUMBER: u8 = 11;

const NUMBERS_END: u8 = 20;

// 10: the image is shorter than header and tables, longer than the maximum, or has too few or too many nodes or buffers.
// Kept: a return for each test: `||` groups to the left, so that of a chain of three and more each test's answer is a nest of cases.
fn fault_10(image: &[u8]) -> bool
    ensures { result ≡ fault10 image.now }
{
    if image.len() < HEADER_SIZE {
        return true;
    }
    if LONGEST_IMAGE < image.len() {
        return true;
    }
    let n = node_count(image);
    if n == 0 {
        return true;
    }
    if MOST_NODES < n as usize {
        return true;
    }
    if MOST_BUFFERS < buffer_total(image) {
        return true;
    }
    image.len() < tables_end(image)
}

// The node of a walk has a fault of the number, where no node has one of a lower number.
// Kept: a number, as said above.
// It is part of its one caller: a walk is lent in memory else, for each node and number.
#[inline(always)]
fn has_fault(number: u8, walk: Walk) -> bool
    requires { NoneBelow number walk.node.image.now × (11 ≤ number) × (walk.node.number < node_count walk.node.image.now) }
    ensures { result ≡ (fault number) of walk.entry.node }
{
    match number {
        11 => fault_11(walk.node),
        12 => fault_12(walk),
        13 => fault_13(walk.node),
        14 => fault_14(walk),
        15 => fault_15(walk.node),
        16 => fault_16(walk.node),
        17 => fault_17(walk.node),
        18 => fault_18(walk.node),
        _ => fault_19(walk.node),
    }
}

// The first node that has a fault of the number, by a walk that starts at the root; none has one of a lower number.
// Kept: a number, as said above.
fn first_faulty(number: u8, start: Walk) -> Option<u16>
    requires { NoneBelow number start.node.image.now × (11 ≤ number) × (start.node.number ≡ 0) }
    ensures { FirstFaulty number start.entry.node.image.now result }
{
    let mut walk = start;
    for k in 0..node_count(start.node.image) {
        if has_fault(number, walk) {
            return Some(k as u16);
        }
        walk = walk.next();
    }
    None
}

// The image check.
pub fn check(image: &[u8]) -> Result<(), Fault>
    ensures { result ≡ check_image image.now }
{
    if fault_10(image) {
        return Err(Fault {
            number: IMAGE_NUMBER,
            node: 0,
        });
    }
    let start = Walk::start(image);
    for number in FIRST_NUMBER..NUMBERS_END {
        if let Some(node) = first_faulty(number, start) {
            return Err(Fault { number, node });
        }
    }
    Ok(())
}
