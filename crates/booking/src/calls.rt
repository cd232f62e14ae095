// The list of calls that books an order. Public only for this crate.
ghost use Rattle.std.specs.Prelude.{length};
ghost use Rattle.terms.specs.Refusals.{says};
ghost use Rattle.booking.specs.CallLaws.{Called, sizes};

use order_file::ordered::Ordered;
use plan_file::PlanFigures;
use planning::planned_orders::plan_order;
use record_list::records::Records;
use recording::Booking;
use recording::recorded::record_plan;
use terms::Refusal;

// A booking, with the order, the records of the plan found and those read back.
#[derive(Clone, Copy)]
pub struct BookedRecords {
    pub booking: Booking,
    pub order: Ordered,
    pub plan: Records,
    pub back: Records,
}

// The whole list of calls, for a list of `entries` demands and lists of `room` and of `space` records.
pub fn make_calls(
    order: &[u8],
    entries: usize,
    room: usize,
    bytes: &mut [u8],
    space: usize,
) -> Result<BookedRecords, Refusal>
    ensures { Called order.now (sizes entries room (length bytes.old) space)
        bytes.old bytes.new (says result) }
{
    let planned = plan_order(order, entries, room)?;
    let order = planned.order;
    let plan = planned.records;
    let figures = PlanFigures {
        periods: order.order().periods,
        buckets: planned.plan.buckets,
        cost: planned.plan.cost,
    };
    let factor = order.order().tariff.factor;
    let recorded = record_plan(
        figures,
        plan.as_slice(),
        factor,
        order.trace(),
        bytes,
        space,
    )?;
    Ok(BookedRecords {
        booking: recorded.booking,
        order,
        plan,
        back: recorded.records,
    })
}
