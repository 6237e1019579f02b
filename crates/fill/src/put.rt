// A row that a node gets: its bit in the bitmap, its value in the node's buffers, and one row more in the node's count.
ghost use Rattle.std.specs.Prelude.{◌≡◌, ◌∷◌, [], ◌+◌, ◌*◌, ◌/◌, ◌%◌, ◌<◌, ◌≤◌, ◌^◌, length, set, replicate};
ghost use Rattle.image.specs.declared.type_code.Layout.TheVariants.{Boolean, FixedWidth, VariableSize, List as Lists, Struct};
ghost use Rattle.image.specs.Of.{◌of◌};
ghost use Rattle.image.specs.Bytes.{byte_at, number_bytes};
ghost use Rattle.image.specs.Record.{code_of};
ghost use Rattle.image.specs.TypeCode.{layout_of};
ghost use Rattle.image.specs.Element.{element_width};
ghost use Rattle.image.specs.Row.{fixed, sized};
ghost use Rattle.image.specs.Built.{gap_row};
ghost use Rattle.rows.specs.Output.{over};
ghost use Rattle.built.specs.Walk.{own};
ghost use Rattle.fill.specs.Filling.{has_offsets, spot_of, state, Counted, CanTake, Took, TookStruct, TookList};

use image::record::{MOST_NODES, Node};
use image::type_code::{Layout, TypeCode};
use rows::output::{Output, copy_bytes};

// The parts of a node: its bitmap, its first and its second buffer.
pub const PARTS: usize = 3;

// How many places an image has at most: one for each part of a node, and its end.
pub const MOST_PLACES: usize = PARTS * MOST_NODES + 1;

// What a node has got so far: how many rows, and how far its offsets are.
#[derive(Clone, Copy)]
struct Tally {
    rows: usize,
    span: usize,
}

// What an image is filled by: where its parts stand, what each node has got, and the buffer.
// Kept: no image, and no ghost field of what is known, which speaks of the image too. The walk goes from node to child, so that
// each method is given a `Node`, which has the image; here it would be said twice, and each method would have to ask that both
// are the same.
#[derive(Drop)]
pub(crate) struct Filling<'a> {
    places: &'a [usize; MOST_PLACES],
    tallies: [Tally; MOST_NODES],
    out: &'a mut [u8],
}

// Where the next row of a node goes: the places of its parts, how many rows it has, and how far its offsets are.
#[derive(Clone, Copy)]
struct Spot {
    bitmap: usize,
    first: usize,
    second: usize,
    row: usize,
    span: usize,
}

// Sets bit j of bits, where it and those behind it in its byte are 0.
fn set_bit(bits: &mut [u8], j: usize)
    requires j_in_bounds { j / 8 < length bits.old }
    requires j_bound { byte_at bits.old (j / 8) < 2 ^ (j % 8) }
    ensures { bits.new ≡ over bits.old (j / 8) ((byte_at bits.old (j / 8) + 2 ^ (j % 8)) ∷ []) }
{
    bits[j / 8] |= 1 << (j % 8);
}

// The nodes of a layout have offsets.
fn has_offsets(layout: Layout) -> bool
    ensures { result ≡ has_offsets layout }
{
    matches!(layout, Layout::VariableSize | Layout::List)
}

// The end of the text or list of the row that goes to a spot, behind the offsets that stand there.
fn put_end(node: Node, spot: Spot, end: usize, out: &mut [u8])
    requires row_bound { (spot.row < 2 ^ 40) × ((element_width of node) ≤ 8) }
    requires node_in_bounds { spot.first + (spot.row + 1) * (element_width of node) + (element_width of node) ≤ length out.old }
    ensures { out.new ≡ over out.old (spot.first + (spot.row + 1) * (element_width of node.entry)) (number_bytes (element_width of node.entry) end) }
{
    let width = node.element_width();
    let mut ends = Output {
        bytes: out,
        at: spot.first + (spot.row + 1) * width,
    };
    ends.put_number(end, width);
}

impl<'a> Filling<'a> {
    // No node has rows yet.
    pub(crate) fn new(places: &'a [usize; MOST_PLACES], out: &'a mut [u8]) -> Filling<'a>
        ensures lent { (result.places.now ≡ places.now) × (result.out.ghost_name ≡ out.entry.ghost_name) × (result.out.now ≡ out.old) }
        ensures none_yet { ((state result).rows ≡ replicate 256 0) × ((state result).spans ≡ replicate 256 0) }
    {
        Filling {
            places,
            tallies: [Tally { rows: 0, span: 0 }; MOST_NODES],
            out,
        }
    }

    // Where the next row of a node goes.
    fn spot_of(&self, node: Node) -> Spot
        requires { node.number < 256 }
        ensures { result ≡ spot_of self.now.places.now (state self.now).rows (state self.now).spans node.entry.number }
    {
        let k = node.number as usize;
        Spot {
            bitmap: self.places[PARTS * k],
            first: self.places[PARTS * k + 1],
            second: self.places[PARTS * k + 2],
            row: self.tallies[k].rows,
            span: self.tallies[k].span,
        }
    }

    // One row more of a node, whose offsets are so far now.
    fn count_row(&mut self, node: Node, row: usize, span: usize)
        requires { (row < 2 ^ 40) × (node.number < 256) }
        ensures { Counted node.entry.number row span self.old self.new }
    {
        self.tallies[node.number as usize] = Tally {
            rows: row + 1,
            span,
        };
    }

    // The row under a null: no bit and no value is set, and a text or list is empty.
    pub(crate) fn put_gap(&mut self, node: Node)
        requires { (CanTake of node) 0 self.old }
        ensures { Took node.entry.image.now (own (gap_row of node.entry) node.entry.number) self.old self.new }
    {
        let spot = self.spot_of(node);
        if has_offsets(node.layout()) {
            put_end(node, spot, spot.span, self.out);
        }
        self.count_row(node, spot.row, spot.span);
    }

    // A Struct's row that is not null: its bit.
    pub(crate) fn put_struct(&mut self, node: Node)
        requires layout { layout_of (code_of of node) ≡ Struct }
        requires getting { (CanTake of node) 0 self.old }
        ensures { (TookStruct of node.entry) self.old self.new }
    {
        let spot = self.spot_of(node);
        set_bit(&mut self.out[spot.bitmap..], spot.row);
        self.count_row(node, spot.row, spot.span);
    }

    // A Boolean: its bit in the bitmap, and its value's.
    pub(crate) fn put_boolean(&mut self, node: Node, x: u8)
        requires layout { layout_of (code_of of node) ≡ Boolean }
        requires x_bound { x ≤ 1 }
        requires getting { (CanTake of node) 0 self.old }
        ensures { Took node.entry.image.now (own (fixed (x ∷ [])) node.entry.number) self.old self.new }
    {
        let spot = self.spot_of(node);
        set_bit(&mut self.out[spot.bitmap..], spot.row);
        self.count_row(node, spot.row, spot.span);
        if x == 1 {
            set_bit(&mut self.out[spot.first..], spot.row);
        }
    }

    // A value of a fixed width: its bit, and its bytes.
    pub(crate) fn put_fixed(&mut self, node: Node, value: &[u8])
        requires layout { layout_of (code_of of node) ≡ FixedWidth }
        requires width { length value.now ≡ (element_width of node) }
        requires getting { (CanTake of node) 0 self.old }
        ensures { Took node.entry.image.now (own (fixed value.now) node.entry.number) self.old self.new }
    {
        let spot = self.spot_of(node);
        set_bit(&mut self.out[spot.bitmap..], spot.row);
        let place = spot.first + spot.row * value.len();
        copy_bytes(&mut self.out[place..place + value.len()], value);
        self.count_row(node, spot.row, spot.span);
    }

    // A text: its bit, its end among the offsets, and its bytes.
    pub(crate) fn put_text(&mut self, node: Node, text: &[u8])
        requires layout { layout_of (code_of of node) ≡ VariableSize }
        requires getting { (CanTake of node) (length text.now) self.old }
        ensures { Took node.entry.image.now (own (sized text.now) node.entry.number) self.old self.new }
    {
        let spot = self.spot_of(node);
        let end = spot.span + text.len();
        set_bit(&mut self.out[spot.bitmap..], spot.row);
        put_end(node, spot, end, self.out);
        let place = spot.second + spot.span;
        copy_bytes(&mut self.out[place..place + text.len()], text);
        self.count_row(node, spot.row, end);
    }

    // A list of n rows: its bit, and its end among the offsets.
    pub(crate) fn put_list(&mut self, node: Node, n: usize)
        requires layout { layout_of (code_of of node) ≡ Lists }
        requires getting { (CanTake of node) n self.old }
        ensures { (TookList of node.entry) n self.old self.new }
    {
        let spot = self.spot_of(node);
        let end = spot.span + n;
        set_bit(&mut self.out[spot.bitmap..], spot.row);
        put_end(node, spot, end, self.out);
        self.count_row(node, spot.row, end);
    }
}
