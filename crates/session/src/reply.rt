// Replies and refusals, and the line of characters that each is printed as.
ghost use Rattle.std.specs.Prelude.{◌≡◌, ◌++◌, ◌+◌, ◌≤◌, length, take, drop};
ghost use Rattle.session.specs.declared.reply.Refusal.TheVariants.{NoFrame, Faulty};
ghost use Rattle.session.specs.Replies.{range_refusal, written_reply, refusal_number, refusal_bytes, answer_bytes, reply_bytes, digit_text, line_text, reply_line};

use crate::frame::FrameFault;
use crate::line::LINE_FEED;
use crate::sizes::{LONGEST_REPLY, OUTPUT};
use answers::numbers::{OUT_OF_RANGE, TOO_LONG, UNEQUAL_TYPES};
use answers::{RangeRefusal, SideFault, WriteRefusal};
use image::answer::{Fault, Side};

// What a line that is not refused is answered with.
#[derive(Clone, Copy, Debug, PartialEq, Eq)]
pub enum Reply {
    // 00
    Done,
    // 00, then 01 or 00 for yes or no
    Answer(bool),
    // 00, then so many bytes of the output
    Bytes(usize),
}

// Why a line is refused. Its line has the refusal's number, and what follows it.
#[derive(Clone, Copy, Debug, PartialEq, Eq)]
pub enum Refusal {
    NoFrame(FrameFault),
    // then the node
    Faulty(Fault),
    UnequalTypes,
    // then the side
    OutOfRange(Side),
    // a piece past its store
    PastStore,
    // a piece for a side that is closed, or its close
    Closed,
    // a side that is needed is open
    Open,
    // the output is too small
    TooLong,
}

impl Refusal {
    // The refusal's number, the first byte of its line.
    fn number(self) -> u8
        ensures { result ≡ refusal_number self }
    {
        match self {
            Refusal::NoFrame(fault) => fault as u8,
            Refusal::Faulty(fault) => fault.number,
            Refusal::UnequalTypes => UNEQUAL_TYPES,
            Refusal::OutOfRange(_) => OUT_OF_RANGE,
            Refusal::PastStore => 40,
            Refusal::Closed => 41,
            Refusal::Open => 42,
            Refusal::TooLong => TOO_LONG,
        }
    }
}

impl From<FrameFault> for Refusal {
    ghost from_gives = { λ e r. r ≡ NoFrame e };

    fn from(fault: FrameFault) -> Refusal {
        Refusal::NoFrame(fault)
    }
}

impl From<SideFault> for Refusal {
    ghost from_gives = { λ e r. r ≡ Faulty e.fault };

    fn from(refusal: SideFault) -> Refusal {
        Refusal::Faulty(refusal.fault)
    }
}

impl From<RangeRefusal> for Refusal {
    ghost from_gives = { λ e r. r ≡ range_refusal e };

    fn from(refusal: RangeRefusal) -> Refusal {
        match refusal {
            RangeRefusal::Image(refusal) => Refusal::Faulty(refusal.fault),
            RangeRefusal::UnequalTypes => Refusal::UnequalTypes,
            RangeRefusal::OutOfRange(side) => Refusal::OutOfRange(side),
        }
    }
}

// A reply has at most so many bytes, of which an output has all but the first.
const LONGEST_BYTES: usize = 65;

// The reply to a write of rows of a side.
pub fn written_reply(answer: Result<usize, WriteRefusal>, side: Side) -> Result<Reply, Refusal>
    ensures { result ≡ written_reply answer side }
{
    match answer {
        Ok(n) => Ok(Reply::Bytes(n)),
        Err(WriteRefusal::Image(fault)) => Err(Refusal::Faulty(fault)),
        Err(WriteRefusal::OutOfRange) => Err(Refusal::OutOfRange(side)),
        Err(WriteRefusal::TooLong) => Err(Refusal::TooLong),
    }
}

// The character of a digit.
// Kept: the library's `from_digit` answers an `Option` of a character, and so is no plainer.
fn digit_text(x: u8) -> u8
    ensures { result ≡ digit_text x }
{
    if x < 10 { b'0' + x } else { b'a' - 10 + x % 16 }
}

// The bytes of a refusal, put at the front of a buffer.
fn refusal_bytes<'a>(refusal: Refusal, bytes: &'a mut [u8; LONGEST_BYTES]) -> &'a [u8]
    ensures { result.now ≡ refusal_bytes refusal }
{
    bytes[0] = refusal.number();
    match refusal {
        Refusal::Faulty(fault) => {
            bytes[1..3].copy_from_slice(&fault.node.to_le_bytes());
            &bytes[..3]
        }
        Refusal::OutOfRange(side) => {
            bytes[1] = side as u8;
            &bytes[..2]
        }
        _ => &bytes[..1],
    }
}

// The bytes of a reply, put at the front of a buffer.
fn answer_bytes<'a>(
    reply: Reply,
    out: &[u8; OUTPUT],
    bytes: &'a mut [u8; LONGEST_BYTES],
) -> &'a [u8]
    ensures { result.now ≡ answer_bytes reply out.now }
{
    bytes[0] = 0;
    match reply {
        Reply::Done => &bytes[..1],
        Reply::Answer(agreed) => {
            bytes[1] = u8::from(agreed);
            &bytes[..2]
        }
        Reply::Bytes(n) => {
            let most = n.min(OUTPUT);
            bytes[1..1 + most].copy_from_slice(&out[..most]);
            &bytes[..1 + most]
        }
    }
}

// The bytes of what a line is answered with, put at the front of a buffer.
fn reply_bytes<'a>(
    reply: Result<Reply, Refusal>,
    out: &[u8; OUTPUT],
    bytes: &'a mut [u8; LONGEST_BYTES],
) -> &'a [u8]
    ensures { result.now ≡ reply_bytes reply out.now }
{
    match reply {
        Ok(given) => answer_bytes(given, out, bytes),
        Err(refusal) => refusal_bytes(refusal, bytes),
    }
}

// The characters of bytes and a line feed, put at the front of a text, and how many they are.
fn print(bytes: &[u8], text: &mut [u8; LONGEST_REPLY]) -> usize
    requires { length bytes.now ≤ 65 }
    ensures value { result ≡ length (line_text bytes.now) }
    ensures text_after { text.new ≡ line_text bytes.now ++ drop result text.old }
{
    for (k, &x) in bytes.iter().enumerate() {
        text[2 * k] = digit_text(x / 16);
        text[2 * k + 1] = digit_text(x % 16);
    }
    let n = bytes.len();
    text[2 * n] = LINE_FEED;
    2 * n + 1
}

// The line that a reply is printed as, put at the front of a text, and how many characters it has.
// Kept: a number and no slice, here and in `print`: of a text that a result borrows from there is no `text.new`, by which a turn
// promises every byte of the text, those behind the line too. Tried: a clause on what the lent text ends as (`follows_so`), which
// the check proves of what hands on a field or a call's result, and not of `print`, which writes. The buffers above are given up
// by `render`, and nothing is promised of what they hold then.
pub fn render(
    reply: Result<Reply, Refusal>,
    out: &[u8; OUTPUT],
    text: &mut [u8; LONGEST_REPLY],
) -> usize
    ensures value { result ≡ length (reply_line reply out.now) }
    ensures text_after { text.new ≡ reply_line reply out.now ++ drop result text.old }
{
    let mut bytes = [0u8; LONGEST_BYTES];
    print(reply_bytes(reply, out, &mut bytes), text)
}
