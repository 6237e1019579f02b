// The writer of rows: what a row is made of, how many bytes a range of rows takes, and the bytes themselves.
#![tactic(auto)]

pub mod measure;
pub mod output;
pub mod value;
pub mod write;
