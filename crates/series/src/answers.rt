// What the series answers.
use record_list::records::Records;

// A plan's number of buckets and its cost.
#[derive(Clone, Copy)]
pub struct Plan {
    pub buckets: u32,
    pub cost: u64,
}

// A plan found, with its records.
#[derive(Clone, Copy)]
pub struct SeriesRecords {
    pub plan: Plan,
    pub records: Records,
}
