// The sizes of what a session holds and of what is lent to it.

// "two image stores of 24,576 bytes each and an output of 64"
pub const STORE: usize = 24576;

pub const OUTPUT: usize = 64;

// A line of 65 bytes has at most 194 characters. One more is kept, so that a longer line is known to be too long; its
// other characters are dropped.
pub const KEPT: usize = 195;

// A reply's line: two characters for each of at most 65 bytes, and the line feed.
pub const LONGEST_REPLY: usize = 131;
