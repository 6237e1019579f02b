// The bytes of rows, put into a lent buffer that has room for them.
ghost use Rattle.image.specs.Of.{◌of◌};
ghost use Rattle.image.specs.Row.{row_at, range};
ghost use Rattle.image.specs.RowBytes.{row_bytes, rows_bytes};
ghost use Rattle.accepted.specs.Parts.{Side};
ghost use Rattle.accepted.specs.Runs.{Remembered};
ghost use Rattle.rows.specs.Output.{Fits, Put};
ghost use Rattle.rows.specs.Value.{content, own_bytes};

use crate::output::Output;
use crate::value::{Value, is_null, value_at};
use accepted::column::{Column, Cursor, KeptRuns};
use image::record::Node;
use image::row_bytes::{MARK_WIDTH, NULL_MARK, VALUE_MARK};

// What a value has before its child rows.
fn put_own(v: Value, out: &mut Output)
    requires { Fits out.old.bytes.now out.old.at (own_bytes (content v)) }
    ensures { Put out.old out.new (own_bytes (content v.entry)) }
{
    out.put_number(usize::from(VALUE_MARK), MARK_WIDTH);
    out.put_number(v.head, v.width);
    out.put_bytes(v.bytes);
}

// A row of a node.
#[cycle(write_row_write_rows)]
fn write_row(cursor: Cursor, depth: usize, runs: &mut KeptRuns, out: &mut Output)
    requires side { (Side of cursor.column.now.node) cursor.row 1 }
    requires remembered { Remembered cursor.column.now.node.image.now runs.old }
    requires fits { Fits out.old.bytes.now out.old.at (row_bytes ((row_at depth of cursor.column.now.node) cursor.row)) }
    ensures put { Put out.old out.new (row_bytes ((row_at depth of cursor.entry.column.now.node) cursor.entry.row)) }
    ensures remembered_after { Remembered cursor.entry.column.now.node.image.now runs.new }
{
    let node = cursor.column.node;
    if is_null(node, cursor.row, depth) {
        out.put_number(usize::from(NULL_MARK), MARK_WIDTH);
        return;
    }
    let v = value_at(node, cursor.column.offset + cursor.row, cursor.run);
    put_own(v, out);
    let Some(rows) = v.rows else {
        return;
    };
    for c in 0..rows.parts {
        let child = rows.child + c;
        write_rows(
            node.image,
            child,
            rows.start,
            rows.count,
            depth - 1,
            runs,
            out,
        );
    }
}

// n rows of a node from row i on. The rows of one run are the same row, whose bytes are put again.
// Kept: no `for`, since a step is as long as a run.
// Kept: measuring walks alike and has functions of its own. It answers with the room that is left and stops where there is none,
// and writing lends a buffer and cannot stop; a trait over both would have three methods with laws, and two impls.
#[cycle(write_row_write_rows)]
pub fn write_rows(
    image: &[u8],
    number: u32,
    i: usize,
    n: usize,
    depth: usize,
    runs: &mut KeptRuns,
    out: &mut Output,
)
    requires side { Side image.now number i n }
    requires remembered { Remembered image.now runs.old }
    requires fits { Fits out.old.bytes.now out.old.at (rows_bytes (range (row_at depth image.now number) i n)) }
    ensures put { Put out.old out.new (rows_bytes (range (row_at depth image.now number) i n)) }
    ensures remembered_after { Remembered image.now runs.new }
{
    if n == 0 {
        return;
    }
    let end = i + n;
    let column = Column::new(Node { image, number });
    let mut cursor = column.first(i, runs);
    while cursor.row < end {
        let stay = cursor.stay(end - cursor.row);
        let at = out.at;
        write_row(cursor, depth, runs, out);
        let size = out.at - at;
        out.put_times(size, stay.rows - 1);
        cursor = stay.next;
    }
    cursor.remember(runs);
}
