// What the bytes of a row begin with, for those that write and read them.

// The mark in front: the row is null, or its value follows.
pub const NULL_MARK: u8 = 0;

pub const VALUE_MARK: u8 = 1;

// How many bytes the mark takes, and how many the length of a text or the count of a list.
pub const MARK_WIDTH: usize = 1;

pub const COUNT_WIDTH: usize = 4;
