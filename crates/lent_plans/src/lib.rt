// Plans in a lent list of bucket records: the series planned into it, and the plan file read into it
// and written from it.
#![tactic(auto)]

mod cuttings;
mod files;

pub use cuttings::series;
pub use files::read_plan;
pub use plan_file::{PlanFigures, write_plan};
pub use series::Plan;
