// What a row that is not null is made of: a number in front, bytes of the image, and ranges of child rows. Whatever goes
// row by row over a table goes by this.
ghost use Rattle.std.specs.Prelude.{◌≡◌, ◌+◌, ◌<◌, ◌^◌};
ghost use Rattle.image.specs.declared.type_code.Layout.TheVariants.{Boolean, FixedWidth, VariableSize, View as Views, List as Lists, ListView, FixedList, Struct, DenseUnion, SparseUnion, Dictionary};
ghost use Rattle.image.specs.Of.{◌of◌};
ghost use Rattle.image.specs.Record.{code_of, first_child};
ghost use Rattle.image.specs.TypeCode.{layout_of};
ghost use Rattle.image.specs.Element.{type_id_at};
ghost use Rattle.accepted.specs.Parts.{Part};
ghost use Rattle.accepted.specs.Runs.{kept_run};
ghost use Rattle.rows.specs.Value.{content, leaf_value, nested_value, is_null};
ghost use Rattle.rows.specs.ValueOf.{text_value, rows_value, union_value, value_of};

use accepted::byte_view::View;
use image::bytes::{bit, byte};
use image::element::VIEW_SIZE;
use image::record::Node;
use image::row_bytes::COUNT_WIDTH;
use image::type_code::{Layout, TypeCode};

// Child rows: of each of `parts` children from `child` on, `count` rows from `start` on.
#[derive(Clone, Copy)]
pub struct ChildRows {
    pub child: u32,
    pub parts: u32,
    pub start: usize,
    pub count: usize,
}

#[derive(Clone, Copy)]
pub struct Value<'a> {
    // the number in front: a text's length, a list's count, a union's id, a Boolean's bit
    // Kept: 0 in 0 bytes where there is none, and no `Option`: nothing asks whether there is one, since a number without bytes
    // takes no room and puts nothing. With an `Option` `put_own` and `measure_row` would each have a case more, and so would
    // `front_bytes`, `tagged_first` and the length of a value (`own_length`).
    pub head: usize,
    // how many bytes the number takes: 0, 1 or 4
    pub width: usize,
    // bytes of the image
    pub bytes: &'a [u8],
    // child rows, where it has some
    pub rows: Option<ChildRows>,
}

// How many bytes an id or a Boolean takes.
const ID_WIDTH: usize = 1;

// A value without child rows.
fn leaf(head: usize, width: usize, bytes: &[u8]) -> Value<'_>
    ensures { content result ≡ leaf_value head width bytes.now }
{
    Value {
        head,
        width,
        bytes,
        rows: None,
    }
}

// Bytes with their length in front.
fn text(bytes: &[u8]) -> Value<'_>
    ensures { content result ≡ text_value bytes.now }
{
    leaf(bytes.len(), COUNT_WIDTH, bytes)
}

// A value of child rows.
fn nested<'a>(head: usize, width: usize, rows: ChildRows) -> Value<'a>
    ensures { content result ≡ nested_value head width rows.child rows.parts rows.start rows.count }
{
    Value {
        head,
        width,
        bytes: &[],
        rows: Some(rows),
    }
}

// Child rows with their count in front.
fn list<'a>(rows: ChildRows) -> Value<'a>
    ensures { content result ≡ nested_value rows.count 4 rows.child rows.parts rows.start rows.count }
{
    nested(rows.count, COUNT_WIDTH, rows)
}

// Rows of one child, from a row on.
fn rows_from(child: u32, start: usize, count: usize) -> ChildRows
    ensures { result ≡ record { child = child; parts = 1; start = start; count = count } }
{
    ChildRows {
        child,
        parts: 1,
        start,
        count,
    }
}

// An element of a node that is part of what is shown.
#[derive(Clone, Copy)]
struct Element<'a> {
    node: Node<'a>,
    j: usize,
    ghost part: { Part node.image.now node.number j 1 },
}

impl<'a> Element<'a> {
    // "Boolean: 00 or 01."
    fn boolean_value(self) -> Value<'a>
        ensures { content result ≡ (value_of Boolean of self.entry.node) self.entry.j }
    {
        let value = bit(self.node.image, self.node.buffer_place(0), self.j);
        leaf(usize::from(value), ID_WIDTH, &[])
    }

    // "Fixed widths: the bytes."
    fn fixed_value(self) -> Value<'a>
        requires { layout_of (code_of of self.node) ≡ FixedWidth }
        ensures { content result ≡ (value_of FixedWidth of self.entry.node) self.entry.j }
    {
        let width = self.node.element_width();
        let place = self.node.buffer_place(0) + self.j * width;
        leaf(0, 0, &self.node.image[place..place + width])
    }

    // "Text, binary, views: u32 length, bytes." Here of texts and binary, from one offset up to the next.
    fn variable_value(self) -> Value<'a>
        requires { layout_of (code_of of self.node) ≡ VariableSize }
        ensures { content result ≡ (value_of VariableSize of self.entry.node) self.entry.j }
    {
        let place = self.node.buffer_place(1);
        let from = self.node.offset_at(self.j);
        let end = self.node.offset_at(self.j + 1);
        text(&self.node.image[place + from..place + end])
    }

    // The same of views, in the view or in a data buffer.
    fn view_value(self) -> Value<'a>
        requires { layout_of (code_of of self.node) ≡ Views }
        ensures { content result ≡ (value_of Views of self.entry.node) self.entry.j }
    {
        let view = View {
            node: self.node,
            entries: self.node.node_entry(0),
            place: self.node.buffer_place(0) + self.j * VIEW_SIZE,
        };
        text(view.bytes())
    }

    // "List kinds and Map: u32 count, child rows." From one offset up to the next.
    fn list_value(self) -> Value<'a>
        requires { layout_of (code_of of self.node) ≡ Lists }
        ensures { content result ≡ (value_of Lists of self.entry.node) self.entry.j }
    {
        let from = self.node.offset_at(self.j);
        let count = self.node.offset_at(self.j + 1) - from;
        list(rows_from(self.node.first_child(), from, count))
    }

    // Of list views, from the offset on as many as the size says.
    fn list_view_value(self) -> Value<'a>
        requires { layout_of (code_of of self.node) ≡ ListView }
        ensures { content result ≡ (value_of ListView of self.entry.node) self.entry.j }
    {
        let from = self.node.offset_at(self.j);
        let count = self.node.numbers(1, self.node.element_width()).at(self.j);
        list(rows_from(self.node.first_child(), from, count))
    }

    // "Fixed lists, Structs: child rows." Here p1 rows of the child.
    fn fixed_list_value(self) -> Value<'a>
        requires { layout_of (code_of of self.node) ≡ FixedList }
        ensures { content result ≡ (value_of FixedList of self.entry.node) self.entry.j }
    {
        let count = self.node.p1();
        nested(
            0,
            0,
            rows_from(self.node.first_child(), self.j * count, count),
        )
    }

    // Of a Struct, one row of each child.
    fn struct_value(self) -> Value<'a>
        ensures { content result ≡ (value_of Struct of self.entry.node) self.entry.j }
    {
        let rows = ChildRows {
            child: self.node.first_child(),
            parts: self.node.child_count(),
            start: self.j,
            count: 1,
        };
        nested(0, 0, rows)
    }

    // "Union: the id byte, child row." The row is one of the child that the id names.
    fn union_value(self, row: usize) -> Value<'a>
        ensures { content result ≡ (union_value of self.entry.node) ((type_id_at of self.entry.node) self.entry.j) row }
    {
        let id = byte(self.node.image, self.node.buffer_place(0) + self.j);
        match self.node.child_with_id(id) {
            Some(child) => nested(usize::from(id), ID_WIDTH, rows_from(child, row, 1)),
            None => leaf(usize::from(id), ID_WIDTH, &[]),
        }
    }

    // Its row is at the stored offset, or at the same place.
    fn dense_value(self) -> Value<'a>
        ensures { content result ≡ (value_of DenseUnion of self.entry.node) self.entry.j }
    {
        self.union_value(self.node.numbers(1, 4).at(self.j))
    }

    fn sparse_value(self) -> Value<'a>
        ensures { content result ≡ (value_of SparseUnion of self.entry.node) self.entry.j }
    {
        self.union_value(self.j)
    }

    // "Dictionary, runs: the row of the values child." It is named by the key, or numbered as the run.
    fn dictionary_value(self) -> Value<'a>
        requires { layout_of (code_of of self.node) ≡ Dictionary }
        ensures { content result ≡ (value_of Dictionary of self.entry.node) self.entry.j }
    {
        nested(
            0,
            0,
            rows_from(self.node.first_child(), self.node.offset_at(self.j), 1),
        )
    }

    fn run_value(self, run: usize) -> Value<'a>
        ensures { content result ≡ rows_value ((first_child of self.entry.node) + 1) run 1 }
    {
        nested(0, 0, rows_from(self.node.first_child() + 1, run, 1))
    }
}

// Row i of a node is null: its bitmap bit is 0, or no depth is left.
#[inline(always)]
pub fn is_null(node: Node, i: usize, depth: usize) -> bool
    requires { i < 2 ^ 34 }
    ensures { result ≡ (is_null depth of node.entry) i }
{
    if depth == 0 {
        return true;
    }
    !node.is_kept(node.bitmap(), i)
}

// The value at element j of a node, beside which a run is kept.
#[inline(always)]
pub fn value_at(node: Node<'_>, j: usize, run: usize) -> Value<'_>
    requires part { (Part of node) j 1 }
    requires run { run ≡ (kept_run of node) j }
    ensures { content result ≡ (value_of (layout_of (code_of of node.entry)) of node.entry) j }
{
    let element = Element { node, j };
    let layout = node.layout();
    match layout {
        Layout::Null => leaf(0, 0, &[]),
        Layout::Boolean => element.boolean_value(),
        Layout::FixedWidth => element.fixed_value(),
        Layout::VariableSize => element.variable_value(),
        Layout::View => element.view_value(),
        Layout::List => element.list_value(),
        Layout::ListView => element.list_view_value(),
        Layout::FixedList => element.fixed_list_value(),
        Layout::Struct => element.struct_value(),
        Layout::DenseUnion => element.dense_value(),
        Layout::SparseUnion => element.sparse_value(),
        Layout::Dictionary => element.dictionary_value(),
        Layout::Runs => element.run_value(run),
    }
}
