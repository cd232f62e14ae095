// The text of figures and of the sheet's lines, in ASCII.
#![tactic(auto)]

mod fields;
pub mod figures;
pub mod fills;
pub mod lines;
mod numerals;
mod texts;

pub use texts::{LONGEST_FIGURE, LONGEST_REFUSAL, megabits, refusal_line};
