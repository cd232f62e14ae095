// What the programs share: their arguments, an order on standard input, a text or a refusal on standard
// output or standard error. For them alone: no contract can say what a program reads or writes, so each
// program's output is held to a stored one.
#![tactic(auto)]

mod arguments;
mod programs;
mod reasons;

pub use arguments::is_word;
use order_file::LONGEST_ORDER;
pub use programs::Program;

// The room for a text, or for the cases of a test program.
pub const INPUT_ROOM: usize = 65_536;

// One byte more than the longest order, so that a byte behind it is seen.
pub const ORDER_ROOM: usize = LONGEST_ORDER + 1;
