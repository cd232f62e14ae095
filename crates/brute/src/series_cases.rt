// The series call against trials of every bucket in every cutting: a small case, its trace and tariff, and
// whether the call answers and records as the plain search does.
use crate::cutting_records::recorded;
use crate::cuttings::{Choice, buckets_of, preferred};
use list_calls::series_on;
use samples::lent_records::{are_same, filled};
use samples::small::{Small, demands, small_tariff, tariff_of};
use series::Plan;
use terms::Refusal;

// One to four periods with demands 0 to 4, five factors, rate caps 0, 2 and 4, depth caps 0, 3 and
// 9, four price lists, fees 0, 1 and 3.
pub const CASES: u32 = 421_200;

// Case n: one of the 780 traces of one to four demands, one of the 180 tariffs, and a fee.
pub fn agrees(n: u32) -> bool {
    let m = n % 780;
    let k = among_its_length(m);
    let trace = demands(k);
    let small = small_tariff(n / 780, fee(n / 140_400));
    match periods(m) {
        1 => agrees_on(&trace[..1], small),
        2 => agrees_on(&trace[..2], small),
        3 => agrees_on(&trace[..3], small),
        _ => agrees_on(&trace, small),
    }
}

// There are 5 traces of one demand, 25 of two, 125 of three and 625 of four.
fn periods(m: u32) -> u32 {
    if m < 5 {
        return 1;
    }
    if m < 30 {
        return 2;
    }
    if m < 155 { 3 } else { 4 }
}

// A trace's number among those of its length.
fn among_its_length(m: u32) -> u32 {
    if m < 5 {
        return m;
    }
    if m < 30 {
        return m - 5;
    }
    if m < 155 { m - 30 } else { m - 155 }
}

fn fee(n: u32) -> u8 {
    match n {
        0 => 0,
        1 => 1,
        _ => 3,
    }
}

// Whether the call, lent four records, answers and leaves the list as the preferred cutting does.
fn agrees_on(trace: &[u16], small: Small) -> bool {
    let lent = series_on(trace, tariff_of(small), filled(), 4);
    let answer = lent.answer;
    let list = lent.list;
    let choice = preferred(trace, small);
    let want = match choice {
        Some(x) => recorded(trace, small, x.cutting),
        None => filled(),
    };
    same_answer(answer, choice) & are_same(list, want, 0)
}

// The number of buckets and the cost, or refusal 7 where there is no cutting.
fn same_answer(a: Result<Plan, Refusal>, choice: Option<Choice>) -> bool {
    match (a, choice) {
        (Ok(x), Some(y)) => (x.buckets == buckets_of(y.cutting)) & (x.cost == y.cost as u64),
        (Err(why), None) => why == Refusal::NoPlan,
        _ => false,
    }
}
