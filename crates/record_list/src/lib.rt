// Bucket records: a plan's, as one value below the offered calls, and in the lent slice of structs that these take.
#![tactic(auto)]

pub mod arrays;
pub mod copies;
pub mod records;
