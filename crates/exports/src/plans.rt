// Plans: the cheapest plan for an order, its cost or its file, and a plan file read.
ghost use Rattle.std.specs.Prelude.{◌≡◌, length};
ghost use Rattle.terms.specs.Answer.{figure_or, on_figures};
ghost use Rattle.terms.specs.Lent.{filled};
ghost use Rattle.plan_file.specs.Plan.{buckets_of};
ghost use Rattle.exports.specs.Answers.{coded, plan_file_in, planned_cost, read_in};
ghost use Rattle.exports.specs.Lists.{Filled, lists};

use crate::answers::{coded_fill, coded_refusal};
use crate::figure_lists::store_figures;
use plan_file::reading::read_records;
use plan_file::{PlanFigures, write_plan};
use planning::planned_orders::plan_order;
use terms::limits::TRACE_LIMIT;

// The cost of the cheapest plan for an order; or refusal 1 to 5 of the order or 7.
pub fn metqoraz_series(order: &[u8]) -> u64
    ensures { result ≡ coded (planned_cost order.now) }
{
    match plan_order(order, TRACE_LIMIT, TRACE_LIMIT) {
        Ok(x) => x.plan.cost,
        Err(x) => coded_refusal(x.why),
    }
}

// Writes the file of the cheapest plan for an order into the front of the bytes and answers its
// length; or refusal 1 to 5 of the order, 7 or 6, and the bytes are as they were.
pub fn metqoraz_book(order: &[u8], plan: &mut [u8]) -> u64
    ensures value { result ≡ coded (on_figures length (plan_file_in (length plan.old) order.now)) }
    ensures plan_after { plan.new ≡ filled (plan_file_in (length plan.old) order.now) plan.old }
{
    let planned = match plan_order(order, TRACE_LIMIT, TRACE_LIMIT) {
        Ok(x) => x,
        Err(x) => return coded_refusal(x.why),
    };
    let order = planned.order;
    let records = planned.records;
    let figures = PlanFigures {
        periods: order.order().periods,
        buckets: planned.plan.buckets,
        cost: planned.plan.cost,
    };
    coded_fill(write_plan(figures, records.as_slice(), plan))
}

// Reads a plan file: its T and its number of buckets into the two numbers, its run lengths, rates and
// depths into the fronts of the three lists; answers its cost, or refusal 1 to 5 or 6 (a list with fewer
// entries than buckets), and everything lent is as it was.
pub fn metqoraz_plan(
    plan: &[u8],
    periods: &mut u32,
    buckets: &mut u32,
    runs: &mut [u32],
    rates: &mut [u32],
    depths: &mut [u32],
) -> u64
    ensures value { result ≡ coded (on_figures (λ x. x.cost) (read_in plan.now (lists runs.old rates.old depths.old))) }
    ensures periods_after { periods.new ≡ figure_or (on_figures (λ x. x.periods) (read_in plan.now (lists runs.old rates.old depths.old))) periods.old }
    ensures buckets_after { buckets.new ≡ figure_or (on_figures (λ x. length x.buckets) (read_in plan.now (lists runs.old rates.old depths.old))) buckets.old }
    ensures filled { Filled (buckets_of (read_in plan.now (lists runs.old rates.old depths.old)))
        (lists runs.old rates.old depths.old)
        (lists runs.new rates.new depths.new) }
{
    let room = runs.len().min(rates.len()).min(depths.len());
    let found = match read_records(plan, room) {
        Ok(x) => x,
        Err(why) => return coded_refusal(why),
    };
    let figures = found.figures();
    store_figures(found.buckets.as_slice(), runs, rates, depths);
    *periods = figures.periods;
    *buckets = figures.buckets;
    figures.cost
}
