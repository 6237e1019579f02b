// A fault that the image check finds. What the calls answer stands in the crate `answers`.

// The image that an answer speaks of. A call on one image takes it as the left one.
#[derive(Clone, Copy, Debug, PartialEq, Eq)]
pub enum Side {
    Left,
    Right,
}

// A fault of an image: its number, 10 to 19, and the node that has it.
// Kept: the check goes through the numbers in order, and what it promises is said by number (docs/FORMAT.md); an enum would be
// turned into its number at once.
#[derive(Clone, Copy, Debug, PartialEq, Eq)]
pub struct Fault {
    pub number: u8,
    pub node: u16,
}
