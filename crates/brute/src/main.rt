// The calls against plain runs and trials of every bucket, on every small case.
#![tactic(auto)]

mod cutting_records;
mod cuttings;
mod meter_cases;
mod runs;
mod series_cases;
mod single_cases;

fn main(rt: HostRuntime) {
    report::words(&rt, b"trial and meter: ");
    report::agreement(&rt, meter_cases::CASES, meter_cases::agrees);
    report::words(&rt, b"depth and single: ");
    report::agreement(&rt, single_cases::CASES, single_cases::agrees);
    report::words(&rt, b"series: ");
    report::agreement(&rt, series_cases::CASES, series_cases::agrees);
}
