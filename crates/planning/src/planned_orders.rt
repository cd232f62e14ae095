// The calls up to planning. Public only for the crates above.
ghost use Rattle.std.specs.Prelude.{◌≡◌, Err, IfErr, Ok};
ghost use Rattle.terms.specs.Answer.{on_figures};
ghost use Rattle.terms.specs.Limits.{trace_limit};
ghost use Rattle.terms.specs.Refusals.{says};
ghost use Rattle.order_file.specs.Ordered.{ordered};
ghost use Rattle.planning.specs.Planning.{planned, planned_order, planned_says};

use order_file::ordered::Ordered;
use record_list::records::Records;
use series::Plan;
use series::planner::plan_series;
use terms::Refusal;

// An order with its trace, the plan found for it, and the plan's records.
#[derive(Clone, Copy)]
pub struct PlannedOrder {
    pub order: Ordered,
    pub plan: Plan,
    pub records: Records,
}

// Why no plan was found, and the order with its trace where it was read, or why it was not.
#[derive(Clone, Copy)]
pub struct Unplanned {
    pub why: Refusal,
    pub order: Result<Ordered, Refusal>,
}

impl From<Unplanned> for Refusal {
    ghost from_gives = { λ x why. why ≡ x.why };

    fn from(x: Unplanned) -> Refusal {
        x.why
    }
}

// An order that was not read.
impl From<Refusal> for Unplanned {
    ghost from_gives = { λ why x. x ≡ record { why = why; order = Err why } };

    fn from(why: Refusal) -> Unplanned {
        Unplanned {
            why,
            order: Err(why),
        }
    }
}

impl Unplanned {
    // A refusal to plan an order that was read.
    fn of(why: Refusal, order: Ordered) -> Unplanned
        ensures { result ≡ record { why = why; order = Ok order } }
    {
        Unplanned {
            why,
            order: Ok(order),
        }
    }
}

// Reads the order, spreads its trace's part, and plans the series with the tariff read and the numbers
// so spread, for a list of `space` demands and one of `room` records. After a refusal to plan an order
// that was read, the order is there with its demands.
pub fn plan_order(order: &[u8], space: usize, room: usize) -> Result<PlannedOrder, Unplanned>
    ensures answer { planned_says result ≡ on_figures planned_order (planned space room order.now) }
    ensures order_read { IfErr result (λ x. says x.order ≡ ordered trace_limit order.now) }
{
    let order = Ordered::read(order)?;
    let trace = order.trace();
    if space < trace.len() {
        return Err(Unplanned::of(Refusal::List, order));
    }
    match plan_series(trace, order.order().tariff, room) {
        Ok(series) => Ok(PlannedOrder {
            order,
            plan: series.plan,
            records: series.records,
        }),
        Err(why) => Err(Unplanned::of(why, order)),
    }
}
