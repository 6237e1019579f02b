// The view of a row, and where its bytes stand. Translated from src/byte_view.rs of arrow-data 60.1.0 (Apache-2.0).
ghost use Rattle.std.specs.Prelude.{◌≡◌, ◌+◌, ◌<◌};
ghost use Rattle.image.specs.Of.{◌of◌};
ghost use Rattle.image.specs.Reads.{Read};
ghost use Rattle.image.specs.Record.{buffer_count};
ghost use Rattle.image.specs.Element.{view_length, view_buffer};
ghost use Rattle.accepted.specs.Parts.{Viewed, ViewBytes, ViewsRead, ViewRow, view_place};

use image::bytes::load;
use image::element::{INLINE_LENGTH, VIEW_SIZE};
use image::record::{ENTRY_SIZE, Node};

// The view of a row that is not null: where it stands, and where the entries of the node's buffers start.
#[derive(Clone, Copy)]
pub struct View<'a> {
    pub node: Node<'a>,
    pub entries: usize,
    pub place: usize,
    ghost viewed: { Viewed node.image.now node.number entries place },
}

impl<'a> View<'a> {
    ghost use Rattle.accepted.specs.Views.{view_bytes};

    // How many bytes it shows.
    pub fn length(self) -> usize
        ensures { Read (view_length self.entry.node.image.now self.entry.place) 32 result }
    {
        load::<4>(self.node.image, self.place)
    }

    // The buffer in which the bytes of a longer one stand, counted among those of the node.
    pub fn buffer(self) -> u32
        requires { 12 < view_length self.node.image.now self.place }
        ensures number { result ≡ 1 + view_buffer self.entry.node.image.now self.entry.place }
        ensures inside { result < buffer_count of self.entry.node }
    {
        1 + load::<4>(self.node.image, self.place + 8) as u32
    }

    // Where its bytes stand: in the view, or in one of the node's data buffers.
    pub fn start(self) -> usize
        ensures { ViewBytes self.entry.node.image.now self.entry.node.number self.entry.place result }
    {
        if self.length() <= INLINE_LENGTH {
            return self.place + 4;
        }
        let entry = self.entries + self.buffer() as usize * ENTRY_SIZE;
        load::<4>(self.node.image, entry) + load::<4>(self.node.image, self.place + 12)
    }

    // Its bytes.
    pub fn bytes(self) -> &'a [u8]
        ensures { result.now ≡ view_bytes self.entry }
    {
        let start = self.start();
        &self.node.image[start..start + self.length()]
    }
}

// A node whose rows are views: where the view of row 0 stands, and where the entries of the node's buffers start.
#[derive(Clone, Copy)]
pub struct Views<'a> {
    pub node: Node<'a>,
    pub first: usize,
    pub entries: usize,
    ghost read: { ViewsRead node.image.now node.number first entries },
}

impl<'a> Views<'a> {
    // What is read once of a node.
    pub fn new(node: Node<'a>) -> Views<'a>
        ensures { result.node ≡ node.entry }
    {
        Views {
            node: node,
            first: node.first_place(VIEW_SIZE),
            entries: node.node_entry(0),
        }
    }

    // The view of row i.
    pub fn view(self, i: usize) -> View<'a>
        requires { (ViewRow of self.node) i }
        ensures node { result.node ≡ self.entry.node }
        ensures place { result.place ≡ (view_place of self.entry.node) i }
    {
        View {
            node: self.node,
            entries: self.entries,
            place: self.first + i * VIEW_SIZE,
        }
    }
}
