// The walk through a text by the table.
ghost use Rattle.std.specs.Prelude.{◌≡◌, ◌<◌};
ghost use Rattle.image.specs.Utf8.{well_formed};

use crate::table::next;

// The state between characters, and that of a text that is ill-formed whatever follows.
pub(crate) const BETWEEN: u8 = 0;

pub(crate) const ILL_FORMED: u8 = 8;

// What is left of a text that is being walked, and the state that the walk is in.
// Kept: a state is a number, since it is an index of the table, whose entries are states.
#[derive(Clone, Copy)]
pub(crate) struct Walk<'a> {
    pub left: &'a [u8],
    pub state: u8,
    ghost known: { state < 9 },
}

impl<'a> Walk<'a> {
    ghost use Rattle.std.specs.Prelude.{◌≡◌};
    ghost use Rattle.utf8.specs.Walks.{Begun, Left, Further, Passed, ends_well};

    // A walk that is at the first byte.
    pub fn start(text: &'a [u8]) -> Walk<'a>
        ensures { Begun text.now result }
    {
        Walk {
            left: text,
            state: BETWEEN,
        }
    }

    // One byte further.
    pub fn step(self) -> Walk<'a>
        requires { Left 1 self }
        ensures { Further 1 self.entry result }
    {
        Walk {
            left: &self.left[1..],
            state: next(self.state, self.left[0]),
        }
    }

    // n bytes further, in the same state.
    pub fn pass(self, n: usize) -> Walk<'a>
        requires { Left n self }
        ensures { Passed n self.entry result }
    {
        Walk {
            left: &self.left[n..],
            state: self.state,
        }
    }

    // The walk of what is left ends between characters.
    pub fn ends_well(self) -> bool
        ensures { result ≡ ends_well self.entry }
    {
        let mut state = self.state;
        for b in self.left {
            state = next(state, *b);
        }
        state == BETWEEN
    }
}

// The text is well-formed: one walk, from the first byte to the last.
pub(crate) fn in_one(text: &[u8]) -> bool
    ensures { result ≡ well_formed text.now }
{
    Walk::start(text).ends_well()
}
