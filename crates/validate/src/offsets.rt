// 17: offsets that are negative, fall or pass the end, and list views outside their child.
ghost use Rattle.std.specs.Prelude.{◌≡◌, not, ◌+◌, ◌<◌};
ghost use Rattle.image.specs.Of.{◌of◌};
ghost use Rattle.image.specs.Ranges.{any};
ghost use Rattle.image.specs.Record.{node_count, elements_of};
ghost use Rattle.image.specs.Element.{element_width};
ghost use Rattle.image.specs.Faults.{fault17, offsets_rise, list_outside};
ghost use Rattle.laws.specs.Accepted.{NoneBelow};
ghost use Rattle.validate.specs.Numbers.{Holds};

use crate::rise::rise;
use image::record::Node;
use image::type_code::Layout;

// The node's offsets at places 0 to e do not rise up to the end.
// Kept: here, below and in `rows` each function asks that the buffers that it reads hold so many numbers. A struct of numbers
// and their count that says so would be made at each of these calls, by the same fact, and each reads it alone.
fn offsets_fall(node: Node, end: usize) -> bool
    requires { (Holds of node) 0 (element_width of node) ((elements_of of node) + 1) }
    ensures { result ≡ not ((offsets_rise of node.entry) end) }
{
    let offsets = node.numbers(0, node.element_width());
    !rise(offsets, 0, end, 0, node.elements() + 1)
}

// A list view of the node does not lie inside its child. The size is compared with what the offset leaves, so that
// nothing is added before it is bounded.
fn lists_outside(node: Node) -> bool
    requires offsets { (Holds of node) 0 (element_width of node) (elements_of of node) }
    requires sizes { (Holds of node) 1 (element_width of node) (elements_of of node) }
    ensures { result ≡ any (list_outside of node.entry) 0 (elements_of of node.entry) }
{
    let width = node.element_width();
    let offsets = node.numbers(0, width);
    let sizes = node.numbers(1, width);
    let end = node.child(0).length();
    for j in 0..node.elements() {
        let offset = offsets.inside(j);
        let size = sizes.inside(j);
        if end < offset || end - offset < size {
            return true;
        }
    }
    false
}

// The node has fault 17.
pub fn fault_17(node: Node) -> bool
    requires { NoneBelow 17 node.image.now × (node.number < node_count node.image.now) }
    ensures { result ≡ fault17 of node.entry }
{
    match node.layout() {
        Layout::VariableSize => offsets_fall(node, node.buffer_length(1)),
        Layout::List => offsets_fall(node, node.child(0).length()),
        Layout::ListView => lists_outside(node),
        _ => false,
    }
}
