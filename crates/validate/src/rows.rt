// 18: in its rows a node names a child, a key, a view or a dense offset that is not there, or its run ends are wrong.
ghost use Rattle.std.specs.Prelude.{◌≡◌, ◌||◌, not, ◌+◌, ◌<◌, ◌≤◌, length};
ghost use Rattle.image.specs.Of.{◌of◌};
ghost use Rattle.image.specs.Ranges.{any};
ghost use Rattle.image.specs.Reads.{Packed};
ghost use Rattle.image.specs.Record.{node_count, length_of, elements_of};
ghost use Rattle.image.specs.Element.{element_width};
ghost use Rattle.image.specs.Faults.{fault18, dense_row_fault, sparse_row_fault, key_row_fault, view_row_fault, view_fault, nonzero, run_ends_rise, last_end_below};
ghost use Rattle.laws.specs.Accepted.{NoneBelow};
ghost use Rattle.validate.specs.Numbers.{KeyLimit, Holds, EndsInside, number_in, reaches};
ghost use Rattle.validate.specs.Unions.{RowsById};
ghost use Rattle.validate.specs.Views.{ViewAt, ViewsInside, is_nonzero};
ghost use Rattle.std.specs.List.{list_any};

use crate::rise::rise;
use image::blocks::any_in_blocks;
use image::bytes::load;
use image::element::{INLINE_LENGTH, VIEW_SIZE};
use image::record::{ENTRY_SIZE, Node};
use image::type_code::{Layout, TypeCode};

// How many rows a union's children have, by their type ids: entry id has the rows of the child that has it, or 0 where none has.
fn rows_by_id(node: Node) -> [u32; 256]
    ensures { (RowsById of node.entry) result }
{
    let mut rows = [0; 256];
    let first = node.first_child();
    for c in (0..node.child_count()).rev() {
        let child = node.other(first + c);
        let id = usize::from(child.type_id());
        rows[id] = child.length() as u32;
    }
    rows
}

// A row of a dense union has a type id without a child, or an offset outside the child that its id names. A child without rows
// has none inside either, so that a row asks its id's entry alone, and no node's record.
fn dense_fault(node: Node) -> bool
    requires { (Holds of node) 0 1 (elements_of of node) × (Holds of node) 1 4 (elements_of of node) }
    ensures { result ≡ any (dense_row_fault of node.entry) 0 (length_of of node.entry) }
{
    let rows = rows_by_id(node);
    let ids = node.numbers(0, 1);
    let offsets = node.numbers(1, 4);
    let from = node.offset();
    for i in 0..node.length() {
        let id = ids.inside(from + i);
        if rows[id] as usize <= offsets.inside(from + i) {
            return true;
        }
    }
    false
}

// A row of a sparse union has a type id without a child.
fn sparse_fault(node: Node) -> bool
    requires { (Holds of node) 0 1 (elements_of of node) }
    ensures { result ≡ any (sparse_row_fault of node.entry) 0 (length_of of node.entry) }
{
    let children = node.children_by_id();
    let ids = node.numbers(0, 1);
    let from = node.offset();
    for i in 0..node.length() {
        let id = ids.inside(from + i);
        if children[id].is_none() {
            return true;
        }
    }
    false
}

// The first key that lies outside `rows` rows: a key of so many bytes is read as an unsigned number, and where keys are
// signed a negative one reads as at least the sign bit.
fn key_limit(node: Node, width: usize) -> usize
    requires { (width ≡ element_width of node) × (width ≤ 8) }
    ensures { (KeyLimit of node.entry) result }
{
    let rows = node.child(0).length();
    if !TypeCode::key_signed(node.p1() as u32) {
        return rows;
    }
    let sign = TypeCode::sign_bit(width) as usize;
    rows.min(sign)
}

// A row that is not null has a key of so many bytes that is not below the limit.
#[inline(always)]
fn kept_key_outside(node: Node, width: usize, limit: usize) -> bool
    requires held { (Holds of node) 0 (element_width of node) (elements_of of node) }
    requires width { width ≡ element_width of node }
    requires limit { (KeyLimit of node) limit }
    ensures { result ≡ any (key_row_fault of node.entry) 0 (length_of of node.entry) }
{
    let keys = node.row_numbers(width);
    node.any_kept(|i| limit <= keys.inside(i))
}

// A row of a Dictionary that is not null has a key outside the values. Without a bitmap it is the keys alone that tell.
// Kept: a match on a number: each arm names a width that is known where its loop is compiled.
fn keys_fault(node: Node) -> bool
    requires { (Holds of node) 0 (element_width of node) (elements_of of node) }
    ensures { result ≡ any (key_row_fault of node.entry) 0 (length_of of node.entry) }
{
    let width = node.element_width();
    let limit = key_limit(node, width);
    if !node.has_bitmap() {
        let keys = node.row_numbers(width);
        return any_in_blocks(node.length(), |i| limit <= keys.inside(i));
    }
    match width {
        1 => kept_key_outside(node, 1, limit),
        2 => kept_key_outside(node, 2, limit),
        4 => kept_key_outside(node, 4, limit),
        _ => kept_key_outside(node, width, limit),
    }
}

// One of W to 2 W bytes is not zero: the first W make a number and the last W, which may share some.
fn ends_nonzero<const W: usize>(bytes: &[u8]) -> bool
    requires { (W ≤ 8) × (W ≤ length bytes.now) × (length bytes.now ≤ W + W) }
    ensures { result ≡ any (nonzero bytes.now) 0 (length bytes.now) }
{
    load::<W>(bytes, 0) != 0 || load::<W>(bytes, bytes.len() - W) != 0
}

// One of the bytes is not zero.
fn some_nonzero(bytes: &[u8]) -> bool
    ensures { result ≡ list_any is_nonzero bytes.now }
{
    bytes.iter().any(|b| *b != 0)
}

// One of at most twelve bytes is not zero. They are read eight or four at a time where there are so many.
fn any_nonzero(bytes: &[u8]) -> bool
    requires { length bytes.now ≤ 12 }
    ensures { result ≡ any (nonzero bytes.now) 0 (length bytes.now) }
{
    if 8 <= bytes.len() {
        return ends_nonzero::<8>(bytes);
    }
    if 4 <= bytes.len() {
        return ends_nonzero::<4>(bytes);
    }
    some_nonzero(bytes)
}

// The view at a place breaks a rule; `entries` is where those of the node's buffers start, `count` how many they are.
fn view_fault(node: Node, view: usize, entries: usize, count: usize) -> bool
    requires { (ViewAt of node) view entries count }
    ensures { result ≡ (view_fault of node.entry) view }
{
    let len = load::<4>(node.image, view);
    if len <= INLINE_LENGTH {
        return any_nonzero(&node.image[view + 4 + len..view + VIEW_SIZE]);
    }
    let buffer = 1 + load::<4>(node.image, view + 8);
    if count <= buffer {
        return true;
    }
    let entry = entries + buffer * ENTRY_SIZE;
    let at = load::<4>(node.image, view + 12);
    if load::<4>(node.image, entry + 4) < at + len {
        return true;
    }
    load::<4>(node.image, view + 4) != load::<4>(node.image, load::<4>(node.image, entry) + at)
}

// A row of views that is not null has a view that breaks a rule.
fn views_fault(node: Node) -> bool
    requires { ViewsInside of node }
    ensures { result ≡ any (view_row_fault of node.entry) 0 (length_of of node.entry) }
{
    let place = node.first_place(VIEW_SIZE);
    let entries = node.node_entry(0);
    let count = node.buffer_count() as usize;
    node.any_kept(|i| view_fault(node, place + i * VIEW_SIZE, entries, count))
}

// The run ends, over all rows of their child, are not positive and strictly rising.
fn run_ends_fall(node: Node) -> bool
    requires { EndsInside of node }
    ensures { result ≡ not (run_ends_rise of node.entry) }
{
    let ends = node.ends();
    let top = TypeCode::sign_bit(ends.width) as usize - 1;
    !rise(ends, 1, top, 1, node.child(0).length())
}

// The last run end lies below e; without run ends e is not 0.
fn last_end_below(node: Node) -> bool
    ensures { result ≡ last_end_below of node.entry }
{
    let e = node.elements();
    let count = node.child(0).length();
    if count == 0 {
        return e != 0;
    }
    node.ends().at(count - 1) < e
}

// Runs whose run ends break a rule.
fn runs_fault(node: Node) -> bool
    requires { EndsInside of node }
    ensures { result ≡ (not (run_ends_rise of node.entry) || last_end_below of node.entry) }
{
    run_ends_fall(node) || last_end_below(node)
}

// The node has fault 18.
pub fn fault_18(node: Node) -> bool
    requires { NoneBelow 18 node.image.now × (node.number < node_count node.image.now) }
    ensures { result ≡ fault18 of node.entry }
{
    match node.layout() {
        Layout::View => views_fault(node),
        Layout::DenseUnion => dense_fault(node),
        Layout::SparseUnion => sparse_fault(node),
        Layout::Dictionary => keys_fault(node),
        Layout::Runs => runs_fault(node),
        _ => false,
    }
}
