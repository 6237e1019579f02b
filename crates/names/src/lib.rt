// Whether the Maps of an image have the names that Arrow gives their entries, keys and values.
#![tactic(auto)]

ghost use Rattle.std.specs.Prelude.{◌≡◌};
ghost use Rattle.image.specs.Of.{◌of◌};
ghost use Rattle.image.specs.Types.{same_bytes, name_of};
ghost use Rattle.image.specs.MapNames.{map_named, maps_named};

use image::record::{Node, all_nodes};
use image::type_code::TypeCode;

const ENTRIES: [u8; 7] = *b"entries";

const KEY: [u8; 3] = *b"key";

const VALUE: [u8; 5] = *b"value";

// The name of the node is this one.
fn is_named(node: Node, name: &[u8]) -> bool
    ensures { result ≡ same_bytes (name_of of node.entry) name.now }
{
    node.name_is(name, 0, name.len())
}

// A node, where it is a Map, has these names. Its child is its entries, and their children are key and value.
fn map_named(node: Node) -> bool
    ensures { result ≡ map_named of node.entry }
{
    if node.code() != TypeCode::MAP {
        return true;
    }
    let entries = node.child(0);
    if !is_named(entries, &ENTRIES) {
        return false;
    }
    if !is_named(entries.child(0), &KEY) {
        return false;
    }
    is_named(entries.child(1), &VALUE)
}

// Every Map's entries are named `entries` and its fields `key` and `value`.
pub fn maps_named(image: &[u8]) -> bool
    ensures { result ≡ maps_named image.now }
{
    all_nodes(image, |k| map_named(Node { image, number: k }))
}
