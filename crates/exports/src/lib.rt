// The calls for programs in C or Rust, on numbers and slices alone. Each answers one number: its figure,
// or 10^18 and a refusal's number. The crate exports_c hands them out under their names.
#![tactic(auto)]

mod answers;
mod buckets;
mod checks;
mod explaining;
mod figure_lists;
mod meters;
mod orders;
mod plans;
mod texts;

pub use answers::REFUSED;
pub use buckets::{metqoraz_depth, metqoraz_depth_from_end, metqoraz_single, metqoraz_trial};
pub use checks::metqoraz_check;
pub use explaining::metqoraz_explain;
pub use meters::metqoraz_meter;
pub use orders::metqoraz_order;
pub use plans::{metqoraz_book, metqoraz_plan, metqoraz_series};
pub use texts::{metqoraz_sheet, metqoraz_single_line, metqoraz_trial_line};
