// A table built from written rows: whether a string is rows of the type that an image has, and the image that they make, put
// into a lent buffer.
#![tactic(auto)]

pub mod front;
pub mod plan;

ghost use Rattle.std.specs.Prelude.{◌≡◌, true, Ok};
ghost use Rattle.image.specs.Of.{◌of◌};
ghost use Rattle.image.specs.Faults.{check_image};
ghost use Rattle.image.specs.Parse.{readable_code, readable, rows_in};
ghost use Rattle.answers.specs.Answers.{rows_answer, image_of, written_over};
ghost use Rattle.rows.specs.Output.{over};
ghost use Rattle.builder.specs.Table.{Laid};

use crate::plan::Plan;
use answers::BuildRefusal;
use fill::fill;
use fill::put::MOST_PLACES;
use image::record::{MOST_NODES, Node, all_nodes};
use image::type_code::TypeCode;
use parse::is_rows;

// The type code of a node is one of those whose rows are read back.
fn is_readable_code(node: Node) -> bool
    ensures { result ≡ readable_code of node.entry }
{
    let code = node.code();
    (code <= TypeCode::FIXED_SIZE_BINARY)
        | (code == TypeCode::LIST)
        | (code == TypeCode::LARGE_LIST)
        | (code == TypeCode::STRUCT)
}

// Rows of the type that an image has are read back: "Types may hold codes 0 to 30, 33, 34 and 38."
pub fn is_readable(image: &[u8]) -> bool
    ensures { result ≡ readable image.now }
{
    all_nodes(image, |k| is_readable_code(Node { image, number: k }))
}

// Puts the image of so many rows, which are the string b: what stands before its parts, zeros behind that, and over them the parts.
fn put_table(plan: &Plan, count: usize, b: &[u8], size: usize, out: &mut [u8])
    requires { Laid plan.now.image.now count b.now plan.now.lengths plan.now.places size out.old }
    ensures { out.new ≡ over out.old 0 (image_of plan.now.image.now (rows_in plan.now.image.now count b.now)) }
{
    let parts = plan.put_front(out);
    out[parts..size].fill(0);
    fill(plan.image, count, b, &plan.places, out);
}

// The table of so many rows, which are the string b, of the type that the image s has: its image, at the front of `out`. A
// refusal leaves `out` as it was.
pub fn build(s: &[u8], count: usize, b: &[u8], out: &mut [u8]) -> Result<usize, BuildRefusal>
    requires { (check_image s.now ≡ Ok tt) × (readable s.now ≡ true) }
    ensures value { result ≡ rows_answer s.now (rows_in s.now count b.now) out.old }
    ensures out_after { out.new ≡ written_over (rows_answer s.now (rows_in s.now count b.now) out.old) (image_of s.now (rows_in s.now count b.now)) out.old }
{
    let mut plan = Plan {
        image: s,
        lengths: [0; MOST_NODES],
        spans: [0; MOST_NODES],
        places: [0; MOST_PLACES],
    };
    if !is_rows(s, count, b, &mut plan.spans) {
        return Err(BuildRefusal::NotRows);
    }
    plan.give_lengths(count);
    let Some(size) = plan.give_places(out.len()) else {
        return Err(BuildRefusal::TooLong);
    };
    put_table(&plan, count, b, size, out);
    Ok(size)
}
