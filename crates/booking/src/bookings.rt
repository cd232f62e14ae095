// The call that planners use: from an order file to a recorded plan.
ghost use Rattle.std.specs.Prelude.{◌≡◌};
ghost use Rattle.terms.specs.Refusals.{says};
ghost use Rattle.booking.specs.Booking.{lent};
ghost use Rattle.booking.specs.Claim.{Claim};

use crate::calls::make_calls;
use order_file::spreads::store_demands;
use record_list::copies::store_records;
use recording::Booking;
use terms::{BucketRecord, Refusal};

// Books an order: reads it, spreads its trace into the demands, plans the series into the first list of
// records, writes the plan into the bytes, reads the front of these back into the second list, and
// offers each recorded run to a fresh meter on its bucket. Or a refusal, and everything lent is as it
// was: 1 to 5 as reading the order gives it, 6 (demands or a first list with fewer entries than
// periods, a second list with fewer than buckets, or bytes fewer than the file) or 7 (no cutting).
pub fn book(
    order: &[u8],
    demands: &mut [u16],
    plan: &mut [BucketRecord],
    bytes: &mut [u8],
    back: &mut [BucketRecord],
) -> Result<Booking, Refusal>
    ensures { Claim order.now
        (lent demands.old plan.old bytes.old back.old)
        (lent demands.new plan.new bytes.new back.new)
        (says result) }
{
    let booked = make_calls(order, demands.len(), plan.len(), bytes, back.len())?;
    store_demands(booked.order.trace(), demands);
    store_records(plan, booked.plan.as_slice());
    store_records(back, booked.back.as_slice());
    Ok(booked.booking)
}
