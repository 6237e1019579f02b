// Rows of a node, read off the front of a string. The functions call one another down the type: the remaining depth falls from
// a row to the rows below it.
ghost use Rattle.std.specs.Prelude.{◌≡◌, suc};
ghost use Rattle.image.specs.Of.{◌of◌};
ghost use Rattle.image.specs.declared.type_code.Layout.TheVariants.{List as Lists};
ghost use Rattle.image.specs.Reads.{Read};
ghost use Rattle.image.specs.Record.{code_of};
ghost use Rattle.image.specs.TypeCode.{layout_of};
ghost use Rattle.image.specs.Parse.{rows_of, row_in};
ghost use Rattle.parse.specs.Scan.{value_of, list_of, struct_of, row_adds, rows_add, counted_adds, joined_adds, Within};
ghost use Rattle.parse.specs.Scanned.{Scanned};

use crate::leaf::Scan;
use image::record::Node;
use image::row_bytes::{NULL_MARK, VALUE_MARK};
use image::type_code::{Layout, TypeCode};

impl Scan<'_, '_> {
    // A row of a node: its mark, and the value behind it. It is part of the loops that call it, which take up to six times as long
    // where it is a call.
    #[cycle(rows)]
    #[inline(always)]
    fn row(&mut self, node: Node, depth: usize) -> Option<()>
        requires { Within of node }
        ensures { Scanned 1 (row_in depth of node.entry) (row_adds depth of node.entry) self.old self.new result }
    {
        if depth == 0 {
            return None;
        }
        let (mark, rest) = self.text.split_first()?;
        self.text = rest;
        if *mark == VALUE_MARK {
            return self.value(node, depth - 1);
        }
        if *mark != NULL_MARK {
            return None;
        }
        if !TypeCode::takes_bitmap(node.code()) {
            return None;
        }
        Some(())
    }

    // The value of a row of a node, whose rows below it have the depth. Most codes say by themselves that a value has a width.
    #[cycle(rows)]
    #[inline(always)]
    fn value(&mut self, node: Node, depth: usize) -> Option<()>
        requires { Within of node }
        ensures { Scanned 0 (value_of depth of node.entry) (row_adds (suc depth) of node.entry) self.old self.new result }
    {
        let code = node.code();
        if TypeCode::INT8 <= code && code <= TypeCode::INTERVAL_MONTH_DAY_NANO {
            return self.bytes(node.element_width());
        }
        self.by_layout(node, code, depth)
    }

    // The same for any layout, of a node of that code. It is a call of its own: the loops over rows are slower where all of it
    // is part of them.
    #[cycle(rows)]
    fn by_layout(&mut self, node: Node, code: u8, depth: usize) -> Option<()>
        requires within { Within of node }
        requires code { Read (code_of of node) 8 code }
        ensures { Scanned 0 (value_of depth of node.entry) (row_adds (suc depth) of node.entry) self.old self.new result }
    {
        match TypeCode::layout(code) {
            Layout::Null => Some(()),
            Layout::Boolean => self.boolean(),
            Layout::FixedWidth => self.bytes(node.element_width()),
            Layout::VariableSize => self.text(code, node.number),
            Layout::List => self.list(node, depth),
            Layout::Struct => self.fields(node, depth),
            _ => None,
        }
    }

    // The value of a list: how many rows, then the rows of its child.
    #[cycle(rows)]
    fn list(&mut self, node: Node, depth: usize) -> Option<()>
        requires within { Within of node }
        requires layout { layout_of (code_of of node) ≡ Lists }
        ensures { Scanned 0 (list_of depth of node.entry) (counted_adds depth of node.entry) self.old self.new result }
    {
        let n = self.count()?;
        self.rows(node.child(0), depth, n)?;
        self.add_span(node.number, n);
        Some(())
    }

    // The value of a Struct: a row of each child.
    #[cycle(rows)]
    fn fields(&mut self, node: Node, depth: usize) -> Option<()>
        requires { Within of node }
        ensures { Scanned 0 (struct_of depth of node.entry) (joined_adds depth of node.entry) self.old self.new result }
    {
        for c in 0..node.child_count() {
            self.row(node.child(c), depth)?;
        }
        Some(())
    }

    // So many rows of a node.
    #[cycle(rows)]
    pub(crate) fn rows(&mut self, node: Node, depth: usize, count: usize) -> Option<()>
        requires { Within of node }
        ensures { Scanned count (rows_of (row_in depth of node.entry) count) (rows_add depth of node.entry) self.old self.new result }
    {
        for _ in 0..count {
            self.row(node, depth)?;
        }
        Some(())
    }
}
