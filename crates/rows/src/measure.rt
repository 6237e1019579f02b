// How many bytes rows take. Measuring stops once the room of the output is used up: each row takes at least one byte, so
// its cost is bounded by the room and not by the table.
ghost use Rattle.std.specs.Prelude.{◌≡◌, ◌*◌, length};
ghost use Rattle.image.specs.Of.{◌of◌};
ghost use Rattle.image.specs.Row.{row_at, range};
ghost use Rattle.image.specs.RowBytes.{row_bytes, rows_bytes};
ghost use Rattle.accepted.specs.Parts.{Side};
ghost use Rattle.accepted.specs.Runs.{Remembered};
ghost use Rattle.rows.specs.Output.{room_after};

use crate::value::{is_null, value_at};
use accepted::column::{Column, Cursor, KeptRuns};
use image::record::Node;
use image::row_bytes::MARK_WIDTH;

// The room that is left after so many bytes, taken so many times.
fn room_after(room: usize, size: usize, times: usize) -> Option<usize>
    ensures { result ≡ room_after room (times * size) }
{
    room.checked_sub(times.checked_mul(size)?)
}

// The room that is left after a row of a node.
#[cycle(measure_row_measure_rows)]
fn measure_row(cursor: Cursor, depth: usize, runs: &mut KeptRuns, room: usize) -> Option<usize>
    requires side { (Side of cursor.column.now.node) cursor.row 1 }
    requires remembered { Remembered cursor.column.now.node.image.now runs.old }
    ensures value { result ≡ room_after room (length (row_bytes ((row_at depth of cursor.entry.column.now.node) cursor.entry.row))) }
    ensures remembered_after { Remembered cursor.entry.column.now.node.image.now runs.new }
{
    let node = cursor.column.node;
    if is_null(node, cursor.row, depth) {
        return room.checked_sub(MARK_WIDTH);
    }
    let v = value_at(node, cursor.column.offset + cursor.row, cursor.run);
    let mut left = room.checked_sub(MARK_WIDTH + v.width + v.bytes.len())?;
    let Some(rows) = v.rows else {
        return Some(left);
    };
    for c in 0..rows.parts {
        let child = rows.child + c;
        left = measure_rows(
            node.image,
            child,
            rows.start,
            rows.count,
            depth - 1,
            runs,
            left,
        )?;
    }
    Some(left)
}

// The room that is left after n rows of a node from row i on. The rows of one run are the same row, and take as much
// each.
// Kept: no `for`, since a step is as long as a run.
// Kept: an image and a number are two arguments, and no `Node`, here and in `write_rows`: a `Node` is lent in memory, and the child
// rows of a Struct took 1.6 times as long. Rows and depth are three more, and no struct: what does one row takes a cursor and the
// depth, so that nothing would hand the struct on, and each call on children would make it anew. The runs would stay beside it:
// they change, and what is known of them is said before and after each call.
#[cycle(measure_row_measure_rows)]
pub fn measure_rows(
    image: &[u8],
    number: u32,
    i: usize,
    n: usize,
    depth: usize,
    runs: &mut KeptRuns,
    room: usize,
) -> Option<usize>
    requires side { Side image.now number i n }
    requires remembered { Remembered image.now runs.old }
    ensures value { result ≡ room_after room (length (rows_bytes (range (row_at depth image.now number) i n))) }
    ensures remembered_after { Remembered image.now runs.new }
{
    if n == 0 {
        return Some(room);
    }
    let end = i + n;
    let column = Column::new(Node { image, number });
    let mut cursor = column.first(i, runs);
    let mut left = room;
    while cursor.row < end {
        let stay = cursor.stay(end - cursor.row);
        let one = measure_row(cursor, depth, runs, left)?;
        left = room_after(one, left - one, stay.rows - 1)?;
        cursor = stay.next;
    }
    cursor.remember(runs);
    Some(left)
}
