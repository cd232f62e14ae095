// An order typed by hand: decimal text read into the seven figures of a tariff and the demands,
// and written as an order file. A byte order mark may stand in front. Spaces, tabs, carriage returns
// and newlines stand between figures; a line ends at a carriage return, at a newline or at the two
// together, and a # opens a comment that runs to the end of its line. A fault says its line, its
// place, its figure and its reason, is refusal 3 or 5 by it, and changes nothing that is lent.
#![tactic(auto)]

mod bytes;
mod faults;
mod scan;
mod typed_orders;
mod words;

pub use faults::{Fault, Reason, TextError, refusal_of};
pub use typed_orders::order_of_text;
pub use words::word_around;
