// Turns: the lines of an input that arrives in chunks, answered one after the other, and the end of the input.
ghost use Rattle.std.specs.Prelude.{◌≡◌, []};
ghost use Rattle.session.specs.Input.{fresh};
ghost use Rattle.session.specs.Turns.{reader_at, line_at, held_in, answered, turn_of, end_of, Told, Turned};

pub use crate::feed::Line;
use crate::feed::line_feed;
use crate::reply::render;
use crate::sizes::LONGEST_REPLY;
pub use crate::step::{Session, Stores};
pub use crate::store::Store;

// How far an input was taken: what is kept of a line that has begun, and the session. A caller may look at it, keep a copy,
// and go on from any value.
#[derive(Clone, Copy)]
pub struct Progress {
    pub line: Line,
    pub session: Session,
}

// What a turn did.
#[derive(Clone, Copy)]
pub struct Taken {
    // how many characters of the chunk it took
    pub consumed: usize,
    // how many characters are to be printed, at the text's front
    pub printed: usize,
}

impl Progress {
    // Before any input.
    pub fn start() -> Progress
        ensures { held_in result ≡ reader_at [] fresh }
    {
        Progress {
            line: Line::new(),
            session: Session::new(),
        }
    }

    // The line that is kept, answered; how many characters of its reply stand at the text's front.
    fn answer(&mut self, text: &mut [u8; LONGEST_REPLY]) -> usize
        ensures told { Told (answered (line_at (held_in self.old).kept (held_in self.old))) (held_in self.new) result text.old text.new }
        ensures chars { self.new.line.chars ≡ self.old.line.chars }
        ensures len { self.new.line.len ≡ 0 }
    {
        let reply = self.session.step(self.line.kept());
        self.line.clear();
        render(reply, &self.session.out, text)
    }

    // Takes the characters of a chunk to those that are kept, up to a line feed or the chunk's end. A line that a line
    // feed ends is answered.
    pub fn turn(&mut self, chunk: &[u8], text: &mut [u8; LONGEST_REPLY]) -> Taken
        ensures { Turned (turn_of chunk.now (held_in self.old)) self.old text.old result self.new text.new }
    {
        match line_feed(chunk) {
            None => {
                self.line.add(chunk);
                Taken {
                    consumed: chunk.len(),
                    printed: 0,
                }
            }
            Some(end) => {
                self.line.add(&chunk[..end]);
                let printed = self.answer(text);
                Taken {
                    consumed: end + 1,
                    printed: printed,
                }
            }
        }
    }

    // The end of the input: a line that has begun is answered.
    pub fn end(&mut self, text: &mut [u8; LONGEST_REPLY]) -> usize
        ensures told { Told (end_of (held_in self.old)) (held_in self.new) result text.old text.new }
        ensures chars { self.new.line.chars ≡ self.old.line.chars }
    {
        if self.line.len > 0 {
            return self.answer(text);
        }
        0
    }
}
