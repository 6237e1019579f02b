// An image of Arrow columns: its numbers, records, buffers and type codes.
// What an image means stands in specs/.
#![tactic(auto)]

pub mod answer;
pub mod blocks;
pub mod bytes;
pub mod element;
pub mod labels;
pub mod names;
pub mod record;
pub mod row_bytes;
pub mod type_code;
