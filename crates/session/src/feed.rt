// Lines out of the chunks that the input arrives in.
ghost use Rattle.std.specs.Prelude.{◌≡◌};
ghost use Rattle.session.specs.Feeds.{feed_at};

use crate::line::LINE_FEED;
use crate::sizes::KEPT;

// Where the first line feed of a chunk stands.
pub fn line_feed(chunk: &[u8]) -> Option<usize>
    ensures { result ≡ feed_at chunk.now }
{
    chunk.iter().position(|c| *c == LINE_FEED)
}

// The first characters of a line: all that have come, or 195 where there are more.
// Kept: a store is an array and how much of it is used, too. One struct for both, over the size, would save two lines of code
// and add a clause: both still add in their own way, since of what does not fit a line takes a part and a store nothing.
#[derive(Clone, Copy)]
pub struct Line {
    pub chars: [u8; KEPT],
    // how many of them are kept, all where it says more; none where no line has begun
    // Kept: 0 stands for nothing else: a line has begun exactly where a character is kept.
    pub len: usize,
}

impl Line {
    ghost use Rattle.std.specs.Prelude.{◌++◌, length, drop, replicate};
    ghost use Rattle.session.specs.Feeds.{kept_with};
    ghost use Rattle.session.specs.Stores.{kept_in};

    // No line has begun.
    pub(crate) fn new() -> Line
        ensures chars { result.chars ≡ replicate 195 0 }
        ensures len { result.len ≡ 0 }
    {
        Line {
            chars: [0; KEPT],
            len: 0,
        }
    }

    // The characters that are kept.
    pub(crate) fn kept(&self) -> &[u8]
        ensures { result.now ≡ kept_in self.now }
    {
        &self.chars[..self.len.min(KEPT)]
    }

    // More characters of the line, kept as long as there is room.
    pub(crate) fn add(&mut self, more: &[u8])
        ensures len { self.new.len ≡ length (kept_with (kept_in self.old) more.now) }
        ensures chars { self.new.chars ≡ kept_with (kept_in self.old) more.now ++ drop (length (kept_with (kept_in self.old) more.now)) self.old.chars }
    {
        let at = self.kept().len();
        let n = more.len().min(KEPT - at);
        self.chars[at..at + n].copy_from_slice(&more[..n]);
        self.len = at + n;
    }

    // The line was answered.
    pub(crate) fn clear(&mut self)
        ensures len { self.new.len ≡ 0 }
        ensures chars { self.new.chars ≡ self.old.chars }
    {
        self.len = 0;
    }
}
