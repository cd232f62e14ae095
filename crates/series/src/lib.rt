// The cheapest cutting of a trace into runs with a bucket each, for the crates above.
#![tactic(auto)]

mod answers;
pub mod planner;
mod records;
mod suffixes;

pub use answers::{Plan, SeriesRecords};
