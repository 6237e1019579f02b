// What stands at a row of a node: its bitmap bit, an element of its first buffer, the union's child that a type id names,
// and the ends of runs.
ghost use Rattle.std.specs.Prelude.{◌≡◌, Bool, true, ℕ, ◌+◌, ◌*◌, ◌<◌, ◌≤◌, ◌^◌};
ghost use Rattle.image.specs.Ranges.{any};
ghost use Rattle.image.specs.Of.{◌of◌};
ghost use Rattle.image.specs.Reads.{Read, BitmapOf, ChildrenById, NamedChild, EndsOf, TellsKept};
ghost use Rattle.image.specs.Record.{code_of, length_of, offset_of, buffer_place};
ghost use Rattle.image.specs.TypeCode.{layout_of};
ghost use Rattle.image.specs.Element.{valid, element_width, element_at};

use crate::bytes::{Numbers, bit};
use crate::record::Node;
use crate::type_code::{Layout, TypeCode};

// The size of a view.
pub const VIEW_SIZE: usize = 16;

// A view of at most so many bytes holds them itself.
pub const INLINE_LENGTH: usize = 12;

// The bitmap of a node that has one, for a loop that asks for many rows: where it starts, and the bit of row 0.
// Kept: beside `Bits` of `values`, which has the bytes and reads words: its methods belong to that crate, and would be
// functions, or stand here, if the struct did. Here one bit is read, of a node that a loop has at hand.
#[derive(Clone, Copy)]
pub struct Bitmap {
    pub place: usize,
    pub first: usize,
}

impl<'a> Node<'a> {
    // The bitmap, where there is one.
    pub fn bitmap(self) -> Option<Bitmap>
        ensures { (BitmapOf of self.entry) result }
    {
        if !self.has_bitmap() {
            return None;
        }
        Some(Bitmap {
            place: self.bitmap_place(),
            first: self.first_bit(),
        })
    }

    // Row i is not null, by the node's bitmap: its bit is 1, or there is no bitmap.
    pub fn is_kept(self, bitmap: Option<Bitmap>, i: usize) -> bool
        requires { (BitmapOf of self) bitmap × (i < 2 ^ 34) }
        ensures { result ≡ (valid of self.entry) i }
    {
        match bitmap {
            None => true,
            Some(bits) => bit(self.image, bits.place, bits.first + i),
        }
    }

    // The layout of the node's rows.
    pub fn layout(self) -> Layout
        ensures { result ≡ layout_of (code_of of self.entry) }
    {
        TypeCode::layout(self.code())
    }

    // The width in bytes of an element of the first buffer.
    pub fn element_width(self) -> usize
        ensures { result ≡ element_width of self.entry }
    {
        TypeCode::width(self.code(), self.p1() as u32)
    }

    // Element j of the first buffer as a number: an offset or a key. It is part of what calls it: a text of a row asks for three.
    #[inline(always)]
    pub fn offset_at(self, j: usize) -> usize
        requires { ((element_width of self) ≤ 8) × (j < 2 ^ 40) }
        ensures { result ≡ (element_at of self.entry) j }
    {
        self.numbers(0, self.element_width()).at(j)
    }

    // The children of a union by their type ids: entry id is the child that has it.
    pub fn children_by_id(self) -> [Option<u32>; 256]
        ensures { (ChildrenById of self.entry) result }
    {
        let mut table = [None; 256];
        let first = self.first_child();
        for c in (0..self.child_count()).rev() {
            let child = self.other(first + c);
            let id = usize::from(child.type_id());
            table[id] = Some(child.number);
        }
        table
    }

    // The child of a union that has the type id.
    pub fn child_with_id(self, id: u8) -> Option<u32>
        ensures { (NamedChild of self.entry) id result }
    {
        let first = self.first_child();
        for c in 0..self.child_count() {
            let child = self.other(first + c);
            if child.type_id() == id {
                return Some(child.number);
            }
        }
        None
    }

    // Where the element of row 0 starts in the first buffer, whose elements have so many bytes.
    pub fn first_place(self, width: usize) -> usize
        requires { width < 2 ^ 32 }
        ensures value { result ≡ (buffer_place of self.entry) 0 + (offset_of of self.entry) * width }
        ensures near { result < 2 ^ 32 * (width + 1) }
    {
        self.buffer_place(0) + self.offset() * width
    }

    // The numbers of a width in the first buffer, from the element of row 0 on.
    pub fn row_numbers(self, width: usize) -> Numbers<'a>
        requires { width < 2 ^ 32 }
        ensures bytes { result.bytes ≡ self.entry.image }
        ensures place { result.place ≡ (buffer_place of self.entry) 0 + (offset_of of self.entry) * width }
        ensures near { result.place < 2 ^ 32 * (width + 1) }
        ensures width { result.width ≡ width }
    {
        Numbers {
            bytes: self.image,
            place: self.first_place(width),
            width: width,
        }
    }

    // The ends of a run node's runs: how wide they are, and where the first of them starts.
    pub fn ends(self) -> Numbers<'a>
        ensures { (EndsOf of self.entry) result }
    {
        let ends = self.child(0);
        ends.row_numbers(TypeCode::integer_width(ends.code() as u32))
    }

    // A row that is not null passes the test.
    pub fn any_kept<F: Fn(usize) -> bool>(self, test: F) -> bool
        requires { (i : ℕ) → i < length_of of self → (valid of self) i ≡ true → F.pre test i }
        ensures { (p : ℕ → Bool) → (TellsKept of self.entry) (F.post test) p → result ≡ any p 0 (length_of of self.entry) }
    {
        let bitmap = self.bitmap();
        for i in 0..self.length() {
            if self.is_kept(bitmap, i) && test(i) {
                return true;
            }
        }
        false
    }
}
