// The printed sheet of the series, from an order file.
#![tactic(auto)]

mod plan_sheets;
mod printed;
mod runs;

pub use plan_sheets::{LONGEST_BUCKET_LINE, LONGEST_FIRST_LINE, LONGEST_SHEET};
pub use printed::sheet;
