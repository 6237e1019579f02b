// Equality of ranges of values without children: bits, bytes, text, views, null masks and types; and the
// pairs of nodes and ranges of rows that all of them take. Ported from the files
// of the equal module of arrow-data 60.1.0 (Apache-2.0) that the modules are named after.
#![tactic(auto)]

pub mod bits;
pub mod boolean;
pub mod byte_view;
pub mod data;
pub mod leaf;
pub mod lengths;
pub mod null;
pub mod pair;
pub mod primitive;
pub mod runs;
pub mod types;
pub mod utils;
pub mod variable_size;
