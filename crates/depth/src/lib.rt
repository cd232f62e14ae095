// The smallest depth that carries a trace at a rate.
#![tactic(auto)]

mod depths;
pub mod walk;

pub use depths::{depth_at, depth_from_end};
