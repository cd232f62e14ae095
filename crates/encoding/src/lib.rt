// How the two files are put into bytes: little-endian numbers and the places in a header.
#![tactic(auto)]

pub mod headers;
pub mod numbers;
