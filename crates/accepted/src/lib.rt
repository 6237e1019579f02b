// Readers that go by what acceptance gives: the run of an element, the run that is kept beside a row, and where a view's
// bytes stand.
#![tactic(auto)]

pub mod byte_view;
pub mod column;
pub mod runs;
