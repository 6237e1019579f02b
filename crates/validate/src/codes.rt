// 11: unknown code or flag, p1 or p2 out of range, a bitmap where none may be.
ghost use Rattle.std.specs.Prelude.{◌≡◌};
ghost use Rattle.image.specs.Of.{◌of◌};
ghost use Rattle.image.specs.Faults.{fault11};

use image::record::Node;
use image::type_code::TypeCode;

const KNOWN_FLAGS: u8 = 3;

// The node has fault 11.
// Kept: a return for each test: `||` groups to the left, so that of a chain of three and more each test's answer is a nest of cases.
pub fn fault_11(node: Node) -> bool
    ensures { result ≡ fault11 of node.entry }
{
    let c = node.code();
    if TypeCode::RUN_END_ENCODED < c {
        return true;
    }
    if KNOWN_FLAGS < node.flags() {
        return true;
    }
    if !TypeCode::p1_fits(c, node.p1() as u32) {
        return true;
    }
    if !TypeCode::p2_fits(c, node.p2() as u32) {
        return true;
    }
    node.has_bitmap() && !TypeCode::takes_bitmap(c)
}
