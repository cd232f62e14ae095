// A meter over a list of offers.
ghost use Rattle.std.specs.Prelude.{◌≤◌, ◌≡◌, length};
ghost use Rattle.std.proofs.lemmas.List.Edits.{sets};
ghost use Rattle.terms.specs.Answer.{on_figures};
ghost use Rattle.terms.specs.Lent.{filled};
ghost use Rattle.single.specs.Single.{bucket_of};
ghost use Rattle.exports.specs.Answers.{coded, factor_of, meter_figures, meter_in};

use crate::answers::coded_refusal;
use meter::{Meter, meter_run};
use terms::{Bucket, Depth, Factor, Rate, Refusal, fresh_in_range};

// The figures of a meter's record that are handed over.
const TOTALS: usize = 5;

// Opens a meter on a fresh bucket and offers it the list, first to last: tokens held, periods, sent,
// over and lost fill the front of the totals, and the periods are answered; or refusal 5, 6 (fewer than
// five totals) or 9 (more offers than a meter takes), and the totals are as they were.
pub fn metqoraz_meter(
    rate: u32,
    depth: u32,
    p: u32,
    q: u32,
    offers: &[u16],
    totals: &mut [u64],
) -> u64
    ensures value { result ≡ coded (on_figures (λ m. m.periods) (meter_in (length totals.old) (bucket_of rate depth) (factor_of p q) offers.now)) }
    ensures totals_after { totals.new ≡ filled (on_figures meter_figures (meter_in (length totals.old) (bucket_of rate depth) (factor_of p q) offers.now)) totals.old }
{
    let bucket = Bucket {
        rate: Rate(rate),
        depth: Depth(depth),
    };
    let factor = Factor { p, q };
    if !fresh_in_range(bucket, factor) {
        return coded_refusal(Refusal::Figure);
    }
    if totals.len() < TOTALS {
        return coded_refusal(Refusal::List);
    }
    let meter = match meter_run(bucket, factor, offers) {
        Ok(x) => x,
        Err(why) => return coded_refusal(why),
    };
    put_totals(meter, totals);
    meter.periods as u64
}

// Stores the figures at the front of the totals.
fn put_totals(meter: Meter, totals: &mut [u64])
    requires { 5 ≤ length totals.old }
    ensures { totals.new ≡ sets totals.old 0 (meter_figures meter) }
{
    totals[0] = meter.held as u64;
    totals[1] = meter.periods as u64;
    totals[2] = meter.sent;
    totals[3] = meter.over;
    totals[4] = meter.lost;
}
