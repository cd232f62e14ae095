// The first run of the best cutting from one start on, for the crate above.
#![tactic(auto)]

mod charges;
pub mod outlines;
mod runs;
pub mod search;
