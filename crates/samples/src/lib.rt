// The tariffs, traces, lent lists, file bytes and plain searches that the test programs share. For
// them alone.
#![tactic(auto)]

pub mod demands;
pub mod file_bytes;
pub mod lent_records;
pub mod plain;
pub mod small;
pub mod tariffs;
pub mod traces;
