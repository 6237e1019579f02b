// 16: a child with too few rows, or runs whose values and run ends are of unequal length.
ghost use Rattle.std.specs.Prelude.{◌≡◌};
ghost use Rattle.image.specs.Of.{◌of◌};
ghost use Rattle.image.specs.Faults.{fault16, child_under};

use crate::buffers::is_under;
use image::record::Node;
use image::type_code::Layout;

// A child of the node has under `rows` rows.
fn child_under(node: Node, rows: usize) -> bool
    ensures { result ≡ (child_under of node.entry) rows }
{
    for c in 0..node.child_count() {
        if node.child(c).length() < rows {
            return true;
        }
    }
    false
}

// The node has fault 16.
pub fn fault_16(node: Node) -> bool
    ensures { result ≡ fault16 of node.entry }
{
    match node.layout() {
        Layout::FixedList => is_under(node.child(0).length(), node.elements(), node.p1()),
        Layout::Struct | Layout::SparseUnion => child_under(node, node.elements()),
        Layout::Runs => node.child(0).length() != node.child(1).length(),
        _ => false,
    }
}
