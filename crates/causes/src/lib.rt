// What sets a depth: the depth at a rate, with the periods that it is needed for.
#![tactic(auto)]

mod explaining;
mod searches;

pub use explaining::{Cause, Explained, Opening, Stretch, explain};
