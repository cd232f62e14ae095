// The discrete token bucket: one period of it, and the trial of a bucket on a trace.
#![tactic(auto)]

pub mod period;
mod trials;

pub use period::Period;
pub use trials::{TrialFigures, trial};
