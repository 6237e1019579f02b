// One line of the session: the frame that it holds, obeyed.
ghost use Rattle.std.specs.Prelude.{◌≡◌, Ok};
ghost use Rattle.std.specs.Borrow.{sem};
ghost use Rattle.session.specs.declared.reply.Reply.TheVariants.{Done};
ghost use Rattle.session.specs.Frames.{command_of};
ghost use Rattle.session.specs.Steps.{compares_reply, range_reply};
ghost use Rattle.session.specs.Stores.{state_of, store_at, LendsStore, after_of, after_command_of, after_line_of};
ghost use Rattle.session.specs.Input.{fresh};

use crate::frame::{Frame, parse};
use crate::line::{LONGEST_FRAME, decode};
use crate::reply::{Refusal, Reply};
use crate::sizes::OUTPUT;
use crate::store::Store;
use api::{compare, compare_range};
use image::answer::Side;

// Both sides' stores.
#[derive(Clone, Copy)]
pub struct Stores {
    pub left: Store,
    pub right: Store,
}

impl Stores {
    // The store of a side.
    fn of(&mut self, side: Side) -> &mut Store
        ensures* lends { sem 𝓛 (LendsStore self.entry side result) }
        ensures value { result.now ≡ store_at side self.old }
    {
        match side {
            Side::Left => &mut self.left,
            Side::Right => &mut self.right,
        }
    }

    // The comparison of both sides: refused where one is open.
    fn compare(&self) -> Result<Reply, Refusal>
        ensures { result ≡ compares_reply self.now.left.bytes self.now.right.bytes (state_of self.now) }
    {
        let equal = compare(self.left.accepted()?, self.right.accepted()?)?;
        Ok(Reply::Answer(equal))
    }

    // The comparison of ranges of both sides.
    fn compare_range(&self, i: usize, j: usize, n: usize) -> Result<Reply, Refusal>
        ensures { result ≡ range_reply self.now.left.bytes self.now.right.bytes (state_of self.now) i j n }
    {
        let equal = compare_range(self.left.accepted()?, self.right.accepted()?, i, j, n)?;
        Ok(Reply::Answer(equal))
    }
}

// Both stores, and the output of what is written.
#[derive(Clone, Copy)]
pub struct Session {
    pub stores: Stores,
    pub out: [u8; OUTPUT],
}

impl Session {
    // "Both start empty and open"
    pub(crate) fn new() -> Session
        ensures { after_of (Ok Done) result ≡ fresh }
    {
        Session {
            stores: Stores {
                left: Store::new(),
                right: Store::new(),
            },
            out: [0; OUTPUT],
        }
    }

    // A frame, obeyed.
    fn obey(&mut self, frame: Frame<'_>) -> Result<Reply, Refusal>
        ensures { after_of result self.new ≡ after_command_of (command_of frame.entry) self.old }
    {
        match frame {
            Frame::Piece(side, piece) => self.stores.of(side).piece(piece),
            Frame::Close(side) => self.stores.of(side).close(),
            Frame::Compare => self.stores.compare(),
            Frame::CompareRange(i, j, n) => self.stores.compare_range(i, j, n),
            Frame::Write(side, i, n) => self.stores.of(side).write(side, i, n, &mut self.out),
            Frame::Empty(side) => {
                self.stores.of(side).empty();
                Ok(Reply::Done)
            }
        }
    }

    // One line: what it is answered with. What it does to the stores, to the sides and to the output, it does here.
    pub(crate) fn step(&mut self, line: &[u8]) -> Result<Reply, Refusal>
        ensures { after_of result self.new ≡ after_line_of line.now self.old }
    {
        let mut buffer = [0u8; LONGEST_FRAME];
        let frame = parse(decode(line, &mut buffer))?;
        self.obey(frame)
    }
}
