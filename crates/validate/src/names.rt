// 13: name too long or outside the image. Also: what lies outside an image.
ghost use Rattle.std.specs.Prelude.{◌≡◌, ◌<◌, ◌^◌};
ghost use Rattle.image.specs.Of.{◌of◌};
ghost use Rattle.image.specs.Faults.{fault13, outside};

use image::record::Node;

const LONGEST_NAME: usize = 64;

// A part of an image, by its place and length, does not lie inside it.
// Kept: a place and a length: what may lie outside is no slice.
pub fn is_outside(image: &[u8], place: usize, len: usize) -> bool
    requires { (place < 2 ^ 32) × (len < 2 ^ 32) }
    ensures { result ≡ outside image.now place len }
{
    image.len() < place + len
}

// The node has fault 13.
pub fn fault_13(node: Node) -> bool
    ensures { result ≡ fault13 of node.entry }
{
    let len = node.name_length();
    LONGEST_NAME < len || len != 0 && is_outside(node.image, node.name_place(), len)
}
