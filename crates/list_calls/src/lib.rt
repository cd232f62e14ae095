// The calls on bucket records, made on the first records of an array that goes in and comes back by
// value. For the test programs alone, which leave the lending to these.
#![tactic(auto)]

mod arrays;

pub use arrays::{BookLent, ReadLent, SeriesLent};
use arrays::{book_in, read_in, series_in, write_in};
use lent_plans::PlanFigures;
use samples::lent_records::{ENTRIES, at_most};
use terms::{BucketRecord, Refusal, Tariff};

// The series planned into the first entries of a list.
pub fn series_on(
    trace: &[u16],
    tariff: Tariff,
    list: [BucketRecord; ENTRIES],
    entries: usize,
) -> SeriesLent {
    series_in(trace, tariff, list, at_most(entries, ENTRIES))
}

// A plan read into the first entries of a list.
pub fn read_on(bytes: &[u8], list: [BucketRecord; ENTRIES], entries: usize) -> ReadLent {
    read_in(bytes, list, at_most(entries, ENTRIES))
}

// A plan written from the first entries of a list.
pub fn write_on(
    plan: PlanFigures,
    list: [BucketRecord; ENTRIES],
    entries: usize,
    bytes: &mut [u8],
) -> Result<usize, Refusal> {
    write_in(plan, list, at_most(entries, ENTRIES), bytes)
}

// An order booked with the first entries of two lists.
pub fn book_on(
    order: &[u8],
    demands: &mut [u16],
    plan: [BucketRecord; ENTRIES],
    planned: usize,
    bytes: &mut [u8],
    back: [BucketRecord; ENTRIES],
    read: usize,
) -> BookLent {
    let planned = at_most(planned, ENTRIES);
    let read = at_most(read, ENTRIES);
    book_in(order, demands, plan, planned, bytes, back, read)
}
