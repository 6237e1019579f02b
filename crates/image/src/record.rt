// The image's header, the records of its nodes and the entries of its buffers.
// A field of a node past the tables reads whatever stands there, and 0 past the image's end.
ghost use Rattle.std.specs.Prelude.{◌≡◌, Bool, ℕ, ◌+◌, ◌*◌, ◌<◌, ◌≤◌, ◌^◌};
ghost use Rattle.image.specs.Ranges.{every, Tells};
ghost use Rattle.image.specs.Of.{◌of◌};
ghost use Rattle.image.specs.Bytes.{byte_at, number_at};
ghost use Rattle.image.specs.Reads.{Read};
ghost use Rattle.image.specs.Record.{record_size, node_count, buffer_total, record_place, entry_place, code_of, flags_of, id_of, name_length, p1_of, p2_of, length_of, offset_of, name_place, bitmap_place, bitmap_length, first_bit, first_child, child_count, first_buffer, buffer_count, nullable, has_bitmap, elements_of, buffer_place, buffer_length, tables_end};

use crate::bytes::{Numbers, byte, le};

// A table's depth is at most so much, the root being 1.
pub const MAX_DEPTH: usize = 16;

// An image has at most so many bytes, and a node at most so many elements.
pub const LONGEST_IMAGE: usize = 16777216;

pub const MOST_ELEMENTS: usize = 1073741824;

// And at most so many nodes.
pub const MOST_NODES: usize = 256;

// The sizes of the header, of a node's record and of a buffer's entry.
pub const HEADER_SIZE: usize = 4;

const RECORD_SIZE: usize = 44;

pub const ENTRY_SIZE: usize = 8;

// n, the number of nodes.
pub fn node_count(image: &[u8]) -> u32
    ensures { Read (node_count image.now) 16 result }
{
    le::<2>(image, 0) as u32
}

// m, the number of buffers.
pub fn buffer_total(image: &[u8]) -> u32
    ensures { Read (buffer_total image.now) 16 result }
{
    le::<2>(image, 2) as u32
}

// Where the entry of a buffer starts, counted among all buffers.
fn entry_place(image: &[u8], buffer: usize) -> usize
    requires { buffer ≤ 8589934592 }
    ensures { Read (entry_place image.now buffer) 40 result }
{
    let tables = Node {
        image: image,
        number: node_count(image),
    };
    tables.record_place() + buffer * ENTRY_SIZE
}

// The length of header and tables.
pub fn tables_end(image: &[u8]) -> usize
    ensures { Read (tables_end image.now) 40 result }
{
    entry_place(image, buffer_total(image) as usize)
}

// A node of an image.
#[derive(Clone, Copy)]
pub struct Node<'a> {
    pub image: &'a [u8],
    pub number: u32,
}

impl<'a> Node<'a> {
    // The root of an image.
    pub fn root(image: &'a [u8]) -> Node<'a>
        ensures image { result.image ≡ image.entry }
        ensures number { result.number ≡ 0 }
    {
        Node { image, number: 0 }
    }

    // The node of a number in the same image.
    pub fn other(self, number: u32) -> Node<'a>
        ensures image { result.image ≡ self.entry.image }
        ensures number { result.number ≡ number }
    {
        Node {
            image: self.image,
            number: number,
        }
    }

    // Where the node's record starts.
    fn record_place(self) -> usize
        ensures { Read (record_place self.entry.number) 38 result }
    {
        HEADER_SIZE + (self.number as usize) * RECORD_SIZE
    }

    // The field of one byte at a byte of the node's record.
    fn byte_field(self, at: usize) -> u8
        requires { at ≤ record_size }
        ensures { Read (byte_at self.entry.image.now (record_place self.entry.number + at)) 8 result }
    {
        byte(self.image, self.record_place() + at)
    }

    // The field of W bytes.
    fn field<const W: usize>(self, at: usize) -> usize
        requires { (W ≤ 8) × (at ≤ record_size) }
        ensures { Read (number_at W self.entry.image.now (record_place self.entry.number + at)) (8 * W) result }
    {
        le::<W>(self.image, self.record_place() + at)
    }

    // The type code.
    pub fn code(self) -> u8
        ensures { Read (code_of of self.entry) 8 result }
    {
        byte(self.image, self.record_place())
    }

    // The flags: 1 nullable, 2 has bitmap.
    pub fn flags(self) -> u8
        ensures { Read (flags_of of self.entry) 8 result }
    {
        self.byte_field(1)
    }

    // The type id of a union's child.
    pub fn type_id(self) -> u8
        ensures { Read (id_of of self.entry) 8 result }
    {
        self.byte_field(2)
    }

    // The length of the node's name.
    pub fn name_length(self) -> usize
        ensures { Read (name_length of self.entry) 8 result }
    {
        usize::from(self.byte_field(3))
    }

    // p1, an i32: a negative number reads as 2 ^ 32 more.
    pub fn p1(self) -> usize
        ensures { Read (p1_of of self.entry) 32 result }
    {
        self.field::<4>(4)
    }

    // p2, as p1.
    pub fn p2(self) -> usize
        ensures { Read (p2_of of self.entry) 32 result }
    {
        self.field::<4>(8)
    }

    // The number of rows.
    pub fn length(self) -> usize
        ensures { Read (length_of of self.entry) 32 result }
    {
        self.field::<4>(12)
    }

    // The element that row 0 reads.
    pub fn offset(self) -> usize
        ensures { Read (offset_of of self.entry) 32 result }
    {
        self.field::<4>(16)
    }

    // Where the node's name stands.
    pub fn name_place(self) -> usize
        ensures { Read (name_place of self.entry) 32 result }
    {
        self.field::<4>(20)
    }

    // Where the bitmap starts.
    pub fn bitmap_place(self) -> usize
        ensures { Read (bitmap_place of self.entry) 32 result }
    {
        self.field::<4>(24)
    }

    // The bitmap's length in bytes.
    pub fn bitmap_length(self) -> usize
        ensures { Read (bitmap_length of self.entry) 32 result }
    {
        self.field::<4>(28)
    }

    // The bitmap's bit of row 0.
    pub fn first_bit(self) -> usize
        ensures { Read (first_bit of self.entry) 32 result }
    {
        self.field::<4>(32)
    }

    // The first child's node.
    pub fn first_child(self) -> u32
        ensures { Read (first_child of self.entry) 16 result }
    {
        self.field::<2>(36) as u32
    }

    // Child c.
    pub fn child(self, c: u32) -> Node<'a>
        requires { c < 2 ^ 31 }
        ensures image { result.image ≡ self.entry.image }
        ensures number { result.number ≡ (first_child of self.entry) + c }
        ensures near { result.number < c + 2 ^ 16 }
    {
        self.other(self.first_child() + c)
    }

    // The number of children.
    pub fn child_count(self) -> u32
        ensures { Read (child_count of self.entry) 16 result }
    {
        self.field::<2>(38) as u32
    }

    // The node's first buffer among all buffers.
    pub fn first_buffer(self) -> u32
        ensures { Read (first_buffer of self.entry) 16 result }
    {
        self.field::<2>(40) as u32
    }

    // The number of buffers.
    pub fn buffer_count(self) -> u32
        ensures { Read (buffer_count of self.entry) 16 result }
    {
        self.field::<2>(42) as u32
    }

    // Flag 1: the node may hold nulls.
    pub fn is_nullable(self) -> bool
        ensures { result ≡ nullable of self.entry }
    {
        self.flags() % 2 == 1
    }

    // Flag 2: the node has a bitmap.
    pub fn has_bitmap(self) -> bool
        ensures { result ≡ has_bitmap of self.entry }
    {
        self.flags() / 2 % 2 == 1
    }

    // e, the sum of length and offset.
    pub fn elements(self) -> usize
        ensures { Read (elements_of of self.entry) 33 result }
    {
        self.length() + self.offset()
    }

    // The entry of buffer j of a node, counted from 0 within the node.
    pub fn node_entry(self, j: u32) -> usize
        ensures { Read (entry_place self.entry.image.now ((first_buffer of self.entry) + j)) 40 result }
    {
        entry_place(self.image, self.first_buffer() as usize + j as usize)
    }

    // Where buffer j of a node starts.
    pub fn buffer_place(self, j: u32) -> usize
        ensures { Read ((buffer_place of self.entry) j) 32 result }
    {
        le::<4>(self.image, self.node_entry(j))
    }

    // The length of buffer j of a node, in bytes.
    pub fn buffer_length(self, j: u32) -> usize
        ensures { Read ((buffer_length of self.entry) j) 32 result }
    {
        le::<4>(self.image, self.node_entry(j) + 4)
    }

    // The numbers of a width that stand in buffer j of a node.
    pub fn numbers(self, j: u32, width: usize) -> Numbers<'a>
        ensures bytes { result.bytes ≡ self.entry.image }
        ensures place { Read ((buffer_place of self.entry) j) 32 result.place }
        ensures width { result.width ≡ width }
    {
        Numbers {
            bytes: self.image,
            place: self.buffer_place(j),
            width: width,
        }
    }
}

// Each node of an image passes the test of its number.
pub fn all_nodes<F: Fn(u32) -> bool>(image: &[u8], test: F) -> bool
    requires { (k : ℕ) → k < node_count image.now → F.pre test k }
    ensures { (p : ℕ → Bool) → Tells (F.post test) (node_count image.now) p → result ≡ every p 0 (node_count image.now) }
{
    for k in 0..node_count(image) {
        if !test(k) {
            return false;
        }
    }
    true
}
