// The services on one bucket, from an order file: the depth at a rate, also with its cause, the single
// bucket and the trial, as figures and as a line of text each.
#![tactic(auto)]

mod explaining;
pub mod figures;
mod lines;

pub use explaining::{LONGEST_EXPLAINED, explain_line};
pub use lines::{
    LONGEST_DEPTH, LONGEST_SINGLE, LONGEST_TRIAL, depth_from_end_line, depth_line, single_line,
    trial_line,
};
