// Filling the parts of an image with the rows that a string holds. Each part holds what the rows so far make, and zeros behind.
#![tactic(auto)]

pub mod put;

ghost use Rattle.std.specs.Prelude.{◌≡◌, ◌*◌, ◌<◌};
ghost use Rattle.image.specs.declared.type_code.Layout.TheVariants.{List as Lists, Struct};
ghost use Rattle.image.specs.Of.{◌of◌};
ghost use Rattle.image.specs.Bytes.{byte_at};
ghost use Rattle.image.specs.Record.{node_count, code_of};
ghost use Rattle.image.specs.TypeCode.{layout_of};
ghost use Rattle.image.specs.Ranges.{pieces};
ghost use Rattle.image.specs.Parse.{rows_in};
ghost use Rattle.image.specs.Built.{part_at, part_start};
ghost use Rattle.rows.specs.Output.{over};
ghost use Rattle.built.specs.Walk.{the_rows};
ghost use Rattle.fill.specs.Filling.{ToFill, gap_gives, Took, AtGap, AtRow, PastRow, AtRows, PastRows};

use crate::put::{Filling, MOST_PLACES};
use image::bytes::le;
use image::record::{MAX_DEPTH, Node};
use image::row_bytes::{COUNT_WIDTH, MARK_WIDTH, NULL_MARK};
use image::type_code::{Layout, TypeCode};

// How many bytes stand before a text or the rows of a list: the mark, and the length or count.
const HEAD: usize = MARK_WIDTH + COUNT_WIDTH;

impl Filling<'_> {
    // The row under a null of a Struct, for a node and for all below it.
    fn fill_gap(&mut self, node: Node, depth: usize)
        requires { (AtGap of node) depth self.old }
        ensures { Took node.entry.image.now (gap_gives depth of node.entry) self.old self.new }
    {
        if depth == 0 {
            return;
        }
        self.put_gap(node);
        if node.code() != TypeCode::STRUCT {
            return;
        }
        for c in 0..node.child_count() {
            self.fill_gap(node.child(c), depth - 1);
        }
    }

    // A row of a list that is not null: its count, and its child rows. Each of these functions answers with what of the string is
    // left behind what it has read.
    #[cycle(fill)]
    fn fill_list<'b>(&mut self, node: Node, depth: usize, b: &'b [u8]) -> &'b [u8]
        requires layout { (layout_of (code_of of node) ≡ Lists) × (byte_at b.now 0 ≡ 1) }
        requires row_walk { (AtRow of node) depth b.now self.old }
        ensures { (PastRow of node.entry) depth b.now self.old self.new result.now }
    {
        let n = le::<COUNT_WIDTH>(b, MARK_WIDTH);
        self.put_list(node, n);
        let child = node.child(0);
        self.fill_rows(child.image, child.number, n, depth - 1, &b[HEAD..])
    }

    // A row of a Struct that is not null: a row of each child.
    #[cycle(fill)]
    fn fill_struct<'b>(&mut self, node: Node, depth: usize, b: &'b [u8]) -> &'b [u8]
        requires layout { (layout_of (code_of of node) ≡ Struct) × (byte_at b.now 0 ≡ 1) }
        requires row_walk { (AtRow of node) depth b.now self.old }
        ensures { (PastRow of node.entry) depth b.now self.old self.new result.now }
    {
        self.put_struct(node);
        let mut rest = &b[MARK_WIDTH..];
        for c in 0..node.child_count() {
            let child = node.child(c);
            rest = self.fill_row(child.image, child.number, depth - 1, rest);
        }
        rest
    }

    // A row of a node, with which the string begins.
    // Kept: an image and a number, here and in `fill_rows`, and no `Node`: one is lent in memory, and a row of a Struct in a Struct
    // took 1.6 times as long.
    #[cycle(fill)]
    fn fill_row<'b>(&mut self, image: &[u8], number: u32, depth: usize, b: &'b [u8]) -> &'b [u8]
        requires { AtRow image.now number depth b.now self.old }
        ensures { PastRow image.now number depth b.now self.old self.new result.now }
    {
        let node = Node { image, number };
        if b[0] == NULL_MARK {
            self.fill_gap(node, depth);
            return &b[MARK_WIDTH..];
        }
        match node.layout() {
            Layout::Null => {
                self.put_gap(node);
                &b[MARK_WIDTH..]
            }
            Layout::Boolean => {
                self.put_boolean(node, b[MARK_WIDTH]);
                &b[MARK_WIDTH + 1..]
            }
            Layout::FixedWidth => {
                let end = MARK_WIDTH + node.element_width();
                self.put_fixed(node, &b[MARK_WIDTH..end]);
                &b[end..]
            }
            Layout::VariableSize => {
                let end = HEAD + le::<COUNT_WIDTH>(b, MARK_WIDTH);
                self.put_text(node, &b[HEAD..end]);
                &b[end..]
            }
            Layout::List => self.fill_list(node, depth, b),
            _ => self.fill_struct(node, depth, b),
        }
    }

    // n rows of a node, one after the other.
    #[cycle(fill)]
    fn fill_rows<'b>(
        &mut self,
        image: &[u8],
        number: u32,
        n: usize,
        depth: usize,
        b: &'b [u8],
    ) -> &'b [u8]
        requires { AtRows image.now number n depth b.now self.old }
        ensures { PastRows image.now number n depth b.now self.old self.new result.now }
    {
        let mut rest = b;
        for i in 0..n {
            rest = self.fill_row(image, number, depth, rest);
        }
        rest
    }
}

// Fills the parts of the image that `count` rows of a string make. The parts hold zeros.
pub fn fill(s: &[u8], count: usize, b: &[u8], places: &[usize; MOST_PLACES], out: &mut [u8])
    requires { ToFill s.now count b.now places.now out.old }
    ensures { out.new ≡ over out.old (part_start s.now (the_rows (rows_in s.now count b.now)) 0) (pieces (part_at s.now (the_rows (rows_in s.now count b.now))) 0 (3 * node_count s.now)) }
{
    let mut filling = Filling::new(places, out);
    let root = Node::root(s);
    filling.fill_rows(root.image, root.number, count, MAX_DEPTH, b);
}
