// Plans checked against an order, whichever planning house made them: whether a plan holds, and by how
// much it is dearer than the cheapest.
#![tactic(auto)]

mod checks;
mod lines;
mod runs;
mod verdicts;

pub use checks::check;
pub use lines::{LONGEST_VERDICT, check_files, check_line};
pub use verdicts::Verdict;
