// What a walk at one rate says of all rates: the needs of its parts are lines in the rate, and lines
// narrow a span of rates. For the crates above.
#![tactic(auto)]

pub mod narrow;
pub mod parts;
pub mod spans;
