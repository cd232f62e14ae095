// A meter over a run of demands: opened on a bucket, and offered them one by one.
ghost use Rattle.std.specs.Prelude.{◌≡◌};
ghost use Rattle.terms.specs.Refusals.{says};
ghost use Rattle.meter.specs.Meter.{meter_run, offers_of};

use crate::meters::{Meter, offer, open_meter};
use terms::{Bucket, Factor, Refusal};

// The record that a meter ends with which is opened on the bucket and offered the demands, first to
// last; or refusal 5, or 9 for more demands than a meter takes.
pub fn meter_run(bucket: Bucket, factor: Factor, demands: &[u16]) -> Result<Meter, Refusal>
    ensures { says result ≡ meter_run bucket factor demands.now }
{
    let meter = open_meter(bucket, factor)?;
    offer_each(meter, demands)
}

// The record that the offers leave, or the first refusal.
#[tactic(auto, using(crate::proofs::Offers::offers_next, crate::proofs::Offers::offers_none))]
fn offer_each(opened: Meter, demands: &[u16]) -> Result<Meter, Refusal>
    ensures { says result ≡ offers_of opened demands.now }
{
    let mut meter = opened;
    for &demand in demands {
        let offered = offer(meter, demand);
        offered.answer?;
        meter = offered.meter;
    }
    Ok(meter)
}
