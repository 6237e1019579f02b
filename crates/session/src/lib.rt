// The session: lines of hexadecimal, two image stores, one reply for each line.
#![tactic(auto)]

mod feed;
mod frame;
mod line;
mod reply;
pub mod sizes;
mod step;
mod store;
pub mod turn;
