// Frames: what the bytes of a line ask for.
ghost use Rattle.std.specs.Prelude.{◌≡◌};
ghost use Rattle.image.specs.Bytes.{byte_at};
ghost use Rattle.session.specs.Frames.{of_length, side_in, only_side, piece_frame, compare_frame, range_frame, write_frame, by_kind, frame_of, lent_bytes, asked_by};

use image::answer::Side;
use image::bytes::{byte, le};

#[derive(Clone, Copy, Debug, PartialEq, Eq)]
pub enum Frame<'a> {
    // a piece of an image, the bytes after the first
    Piece(Side, &'a [u8]),
    // "03 side, close"
    Close(Side),
    Compare,
    // left start, right start, count
    // Kept: numbers by themselves, here and in a write, as the calls of `api` take them.
    CompareRange(usize, usize, usize),
    // side, start, count
    Write(Side, usize, usize),
    // "07 side, empty and open"
    Empty(Side),
}

// Why a line is no frame, by the refusal's number.
#[derive(Clone, Copy, Debug, PartialEq, Eq)]
pub enum FrameFault {
    NotHexadecimal = 1,
    UnknownCommand = 2,
    WrongForm = 3,
}

// The frame has so many bytes.
fn of_length(frame: &[u8], n: usize) -> Result<(), FrameFault>
    ensures { result ≡ of_length n frame.now }
{
    if frame.len() != n {
        return Err(FrameFault::WrongForm);
    }
    Ok(())
}

// The side that a frame names, in its second byte.
// Kept: the documents number the sides.
fn side_in(frame: &[u8]) -> Result<Side, FrameFault>
    ensures { result ≡ side_in frame.now }
{
    match byte(frame, 1) {
        0 => Ok(Side::Left),
        1 => Ok(Side::Right),
        _ => Err(FrameFault::WrongForm),
    }
}

// "01 or 02 and 1 to 64 bytes, a piece left or right"
fn piece_frame(frame: &[u8], side: Side) -> Result<Frame<'_>, FrameFault>
    ensures { asked_by result ≡ piece_frame frame.now side }
{
    if frame.len() < 2 {
        return Err(FrameFault::WrongForm);
    }
    Ok(Frame::Piece(side, &frame[1..]))
}

// The side that a frame of two bytes names.
fn only_side(frame: &[u8]) -> Result<Side, FrameFault>
    ensures { result ≡ only_side frame.now }
{
    of_length(frame, 2)?;
    side_in(frame)
}

// "04 compare all"
fn compare_frame(frame: &[u8]) -> Result<Frame<'_>, FrameFault>
    ensures { asked_by result ≡ compare_frame frame.now }
{
    of_length(frame, 1)?;
    Ok(Frame::Compare)
}

// "05 and three u32 (left start, right start, count)"
fn range_frame(frame: &[u8]) -> Result<Frame<'_>, FrameFault>
    ensures { asked_by result ≡ range_frame frame.now }
{
    of_length(frame, 13)?;
    Ok(Frame::CompareRange(le::<4>(frame, 1), le::<4>(frame, 5), le::<4>(frame, 9)))
}

// "06 side, u32 start, u32 count, write"
fn write_frame(frame: &[u8]) -> Result<Frame<'_>, FrameFault>
    ensures { asked_by result ≡ write_frame frame.now }
{
    of_length(frame, 10)?;
    let side = side_in(frame)?;
    Ok(Frame::Write(side, le::<4>(frame, 2), le::<4>(frame, 6)))
}

// What a frame asks for, by its first byte.
// Kept: the documents number the commands.
fn by_kind(frame: &[u8]) -> Result<Frame<'_>, FrameFault>
    ensures { asked_by result ≡ by_kind (byte_at frame.now 0) frame.now }
{
    match byte(frame, 0) {
        1 => piece_frame(frame, Side::Left),
        2 => piece_frame(frame, Side::Right),
        3 => Ok(Frame::Close(only_side(frame)?)),
        4 => compare_frame(frame),
        5 => range_frame(frame),
        6 => write_frame(frame),
        7 => Ok(Frame::Empty(only_side(frame)?)),
        _ => Err(FrameFault::UnknownCommand),
    }
}

// What the bytes of a line ask for; a line without is not hexadecimal.
pub fn parse<'a>(bytes: Option<&'a [u8]>) -> Result<Frame<'a>, FrameFault>
    ensures { asked_by result ≡ frame_of (lent_bytes bytes.entry) }
{
    match bytes {
        Some(frame) if !frame.is_empty() => by_kind(frame),
        _ => Err(FrameFault::NotHexadecimal),
    }
}
