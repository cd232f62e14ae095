// The order file, read and written. A writer fills the front of the lent bytes; a refusal changes
// nothing that is lent.
#![tactic(auto)]

mod ends;
pub mod ordered;
mod orders;
pub mod spreads;
mod traces;

pub use ends::order_end;
pub use orders::{LONGEST_ORDER, Order, read_order, trace_part, write_order};
pub use traces::spread;
