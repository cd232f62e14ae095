// The plan file, read and written. A writer fills the front of the lent bytes; a refusal changes nothing
// that is lent.
#![tactic(auto)]

mod answers;
mod layout;
pub mod reading;
mod records;
mod writing;

pub use answers::{PlanFigures, Recorded};
pub use layout::LONGEST_PLAN;
pub use writing::write_plan;
