// Figures as they are typed: the number that a word of digits stands for, the most that each figure of
// an order may be, and the tariff of the first seven.
#![tactic(auto)]

pub mod digits;
pub mod figures;
mod limits;
mod words;

pub use limits::limit_of;
pub use words::number_of;
