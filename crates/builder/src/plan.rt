// How long the nodes of a built image are, how many bytes each of its parts takes, and where each part stands.
ghost use Rattle.std.specs.Prelude.{◌≡◌, true, ◌+◌, ◌*◌, ◌/◌, ◌<◌, ◌≤◌, get_or, ltb, Ok};
ghost use Rattle.std.specs.List.{list_any};
ghost use Rattle.image.specs.Ranges.{any};
ghost use Rattle.image.specs.Reads.{Read};
ghost use Rattle.image.specs.Record.{longest_image, most_elements, node_count};
ghost use Rattle.image.specs.TypeCode.{layout_of};
ghost use Rattle.image.specs.Faults.{check_image};
ghost use Rattle.image.specs.Parse.{readable};
ghost use Rattle.image.specs.Built.{name_start};
ghost use Rattle.builder.specs.Front.{Rise};
ghost use Rattle.builder.specs.Plan.{Lengths, child_rows, bit_bytes, bitmap_size, first_size, second_size, part_size, too_many, PlanOf};

use fill::put::{MOST_PLACES, PARTS};
use image::record::{LONGEST_IMAGE, MOST_ELEMENTS, MOST_NODES, Node, node_count, tables_end};
use image::type_code::{Layout, TypeCode};

// What a built image is put by: the image whose type it has, how many rows each node has, how far its offsets go on in all (its
// span), and where each part stands, with the image's end behind them. The image is accepted, of codes that are read back, and no
// part stands before the one before it.
// Kept: lengths and spans are no table of a struct: `parse`, which fills the spans alone, would have to know of lengths.
#[derive(Drop)]
pub(crate) struct Plan<'a> {
    pub(crate) image: &'a [u8],
    pub(crate) lengths: [usize; MOST_NODES],
    pub(crate) spans: [usize; MOST_NODES],
    pub(crate) places: [usize; MOST_PLACES],
    ghost accepted: { check_image image.now ≡ Ok tt },
    ghost coded: { readable image.now ≡ true },
    ghost few: { node_count image.now ≤ 256 },
    ghost risen: { Rise image.now places },
}

// The bytes that so many bits take.
fn bit_bytes(n: usize) -> usize
    ensures { result ≡ bit_bytes n }
{
    n.div_ceil(8)
}

// The bytes of the bitmap of so many rows, where the code may have one.
fn bitmap_size(code: u8, rows: usize) -> usize
    ensures { result ≡ bitmap_size (layout_of code) rows }
{
    if TypeCode::takes_bitmap(code) {
        return bit_bytes(rows);
    }
    0
}

// The bytes of the first buffer of so many rows, whose elements are so wide.
fn first_size(code: u8, width: usize, rows: usize) -> usize
    requires { (width ≤ longest_image) × (rows ≤ most_elements) }
    ensures { result ≡ first_size (layout_of code) width rows }
{
    let layout = TypeCode::layout(code);
    match layout {
        Layout::Boolean => bit_bytes(rows),
        Layout::FixedWidth => rows * width,
        Layout::VariableSize | Layout::List => (rows + 1) * width,
        _ => 0,
    }
}

// The bytes of the second buffer: those of texts.
fn second_size(code: u8, span: usize) -> usize
    ensures { result ≡ second_size (layout_of code) span }
{
    let layout = TypeCode::layout(code);
    match layout {
        Layout::VariableSize => span,
        _ => 0,
    }
}

// One of the lengths is more than a node may have.
fn any_above(lengths: &[usize]) -> bool
    ensures { result ≡ list_any (ltb most_elements) lengths.now }
{
    lengths.iter().any(|rows| *rows > MOST_ELEMENTS)
}

impl<'a> Plan<'a> {
    // Node k of the image.
    pub(crate) fn node(&self, k: u32) -> Node<'a>
        ensures image { result.image ≡ self.now.image }
        ensures number { result.number ≡ k }
    {
        Node {
            image: self.image,
            number: k,
        }
    }

    // How many rows each child of a node has: as many as a Struct, or as a list's offsets go on.
    fn child_rows(&self, node: Node) -> usize
        requires { node.number < 256 }
        ensures { result ≡ child_rows node.entry.image.now self.now.lengths self.now.spans node.entry.number }
    {
        let i = node.number as usize;
        if node.code() == TypeCode::STRUCT {
            return self.lengths[i];
        }
        self.spans[i]
    }

    // Gives each node its length: the root's is the row count, and a parent's number is lower than its children's.
    pub(crate) fn give_lengths(&mut self, count: usize)
        ensures image { self.new.image.now ≡ self.old.image.now }
        ensures spans { self.new.spans ≡ self.old.spans }
        ensures places { self.new.places ≡ self.old.places }
        ensures lengths { Lengths self.old.image.now count self.old.spans self.new.lengths }
    {
        self.lengths[0] = count;
        for k in 0..node_count(self.image) {
            let node = self.node(k);
            let rows = self.child_rows(node);
            let first = node.first_child() as usize;
            let end = first + node.child_count() as usize;
            self.lengths[first..end].fill(rows);
        }
    }

    // The bytes of part q of all: of node q / 3 its bitmap, its first or its second buffer.
    // Kept: a match on a number, since the definitions number the parts through, three for each node: those of an image are
    // `pieces .. 0 (3 * node_count)`. An enum of the three would have to be made of `q % PARTS` here, by this very match.
    fn part_size(&self, q: usize) -> usize
        requires part { q < 3 * node_count self.now.image.now }
        requires few { get_or self.now.lengths (q / 3) 0 ≤ most_elements }
        ensures { result ≡ part_size self.now.image.now self.now.lengths self.now.spans q }
    {
        let i = q / PARTS;
        let node = self.node(i as u32);
        let code = node.code();
        match q % PARTS {
            0 => bitmap_size(code, self.lengths[i]),
            1 => first_size(code, node.element_width(), self.lengths[i]),
            _ => second_size(code, self.spans[i]),
        }
    }

    // Where the names end, which stand one after the other behind the tables.
    fn names_end(&self) -> usize
        ensures { Read (name_start self.now.image.now (node_count self.now.image.now)) 17 result }
    {
        let mut end = tables_end(self.image);
        for k in 0..node_count(self.image) {
            end += self.node(k).name_length();
        }
        end
    }

    // Whether a node has more rows than a node may have.
    fn too_many(&self) -> bool
        ensures { result ≡ any (too_many self.now.lengths) 0 (node_count self.now.image.now) }
    {
        any_above(&self.lengths[..node_count(self.image) as usize])
    }

    // Gives each part its place, and answers how long the image is; None where a node would have too many rows, or where it is
    // too long for the buffer, or for an image. Sums stop at the first that is longer than an image may be.
    pub(crate) fn give_places(&mut self, room: usize) -> Option<usize>
        ensures image { self.new.image.now ≡ self.old.image.now }
        ensures lengths { self.new.lengths ≡ self.old.lengths }
        ensures spans { self.new.spans ≡ self.old.spans }
        ensures places { PlanOf self.old.image.now self.old.lengths self.old.spans room self.new.places result }
    {
        if self.too_many() {
            return None;
        }
        let end = PARTS * node_count(self.image) as usize;
        let mut place = self.names_end();
        let mut places = [0; MOST_PLACES];
        places[0] = place;
        for q in 0..end {
            let size = self.part_size(q);
            if size > LONGEST_IMAGE - place {
                return None;
            }
            place += size;
            places[q + 1] = place;
        }
        if room < place {
            return None;
        }
        self.places = places;
        Some(place)
    }
}
