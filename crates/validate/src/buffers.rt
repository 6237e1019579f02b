// 14: a buffer's count, number, place or whole elements. 15: a bitmap or a buffer that holds too few elements.
ghost use Rattle.std.specs.Prelude.{◌≡◌, ◌&&◌, not, ◌+◌, ◌*◌, ◌<◌, ◌^◌, ltb};
ghost use Rattle.image.specs.Of.{◌of◌};
ghost use Rattle.image.specs.Ranges.{any};
ghost use Rattle.image.specs.Record.{code_of, bitmap_place, bitmap_length, first_bit, length_of, buffer_count, buffer_length, elements_of, has_bitmap};
ghost use Rattle.image.specs.TypeCode.{layout_of};
ghost use Rattle.image.specs.Faults.{fault14, fault15, outside, buffer_outside, whole, not_whole, under, too_few_elements};

use crate::names::is_outside;
use crate::tree::{Walk, total_wrong};
use image::record::{MOST_ELEMENTS, Node, buffer_total};
use image::type_code::{Layout, TypeCode};

// A buffer of the node does not lie inside the image.
fn any_outside(node: Node) -> bool
    ensures { result ≡ any (buffer_outside of node.entry) 0 (buffer_count of node.entry) }
{
    for j in 0..node.buffer_count() {
        if is_outside(node.image, node.buffer_place(j), node.buffer_length(j)) {
            return true;
        }
    }
    false
}

// The node has a bitmap that does not lie inside the image.
fn bitmap_outside(node: Node) -> bool
    ensures { result ≡ (has_bitmap of node.entry && outside node.entry.image.now (bitmap_place of node.entry) (bitmap_length of node.entry)) }
{
    node.has_bitmap() && is_outside(node.image, node.bitmap_place(), node.bitmap_length())
}

// Buffer j of the node does not hold whole elements of `width` bytes.
fn buffer_not_whole(node: Node, j: u32, width: usize) -> bool
    ensures { result ≡ not (whole ((buffer_length of node.entry) j) width) }
{
    !node.buffer_length(j).is_multiple_of(width)
}

// A buffer of offsets, sizes, keys or views that does not hold whole elements.
fn any_not_whole(node: Node) -> bool
    ensures { result ≡ not_whole (layout_of (code_of of node.entry)) node.entry.image.now node.entry.number }
{
    let width = node.element_width();
    match node.layout() {
        Layout::VariableSize | Layout::View | Layout::List | Layout::Dictionary => buffer_not_whole(
            node, 0, width,
        ),
        Layout::ListView => buffer_not_whole(node, 0, width) || buffer_not_whole(node, 1, width),
        Layout::DenseUnion => buffer_not_whole(node, 1, 4),
        _ => false,
    }
}

// The node has fault 14.
// Kept: a return for each test: `||` groups to the left, so that of a chain of three and more each test's answer is a nest of cases.
pub fn fault_14(walk: Walk) -> bool
    ensures { result ≡ fault14 of walk.entry.node }
{
    let node = walk.node;
    if !TypeCode::buffers(node.code()).allows(node.buffer_count()) {
        return true;
    }
    if node.first_buffer() as usize != walk.buffers {
        return true;
    }
    if total_wrong(node.number, walk.all_buffers, buffer_total(node.image)) {
        return true;
    }
    if any_outside(node) {
        return true;
    }
    if bitmap_outside(node) {
        return true;
    }
    if MOST_ELEMENTS < node.elements() {
        return true;
    }
    any_not_whole(node)
}

// A part of `len` bytes is under `count` elements of `width` bytes. Nothing is multiplied, so nothing wraps.
pub fn is_under(len: usize, count: usize, width: usize) -> bool
    ensures { result ≡ ltb len (count * width) }
{
    width != 0 && len / width < count
}

// Buffer j of the node is under `count` elements of `width` bytes.
fn buffer_under(node: Node, j: u32, count: usize, width: usize) -> bool
    ensures { result ≡ (under of node.entry) j count width }
{
    is_under(node.buffer_length(j), count, width)
}

// The node has a bitmap of under first bit + length bits.
fn bitmap_under(node: Node) -> bool
    ensures { result ≡ (has_bitmap of node.entry && ltb (8 * (bitmap_length of node.entry)) ((first_bit of node.entry) + (length_of of node.entry))) }
{
    node.has_bitmap() && 8 * node.bitmap_length() < node.first_bit() + node.length()
}

// A buffer of the node is under e elements.
fn any_under(node: Node) -> bool
    ensures { result ≡ too_few_elements (layout_of (code_of of node.entry)) node.entry.image.now node.entry.number (elements_of of node.entry) }
{
    let e = node.elements();
    let width = node.element_width();
    match node.layout() {
        Layout::Boolean => 8 * node.buffer_length(0) < e,
        Layout::FixedWidth | Layout::View | Layout::Dictionary => buffer_under(node, 0, e, width),
        Layout::VariableSize | Layout::List => buffer_under(node, 0, e + 1, width),
        Layout::ListView => buffer_under(node, 0, e, width) || buffer_under(node, 1, e, width),
        Layout::DenseUnion => buffer_under(node, 0, e, 1) || buffer_under(node, 1, e, 4),
        Layout::SparseUnion => buffer_under(node, 0, e, 1),
        _ => false,
    }
}

// The node has fault 15.
pub fn fault_15(node: Node) -> bool
    ensures { result ≡ fault15 of node.entry }
{
    bitmap_under(node) || any_under(node)
}
