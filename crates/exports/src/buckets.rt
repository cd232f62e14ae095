// One bucket for an order, as figures: the depth at a rate, the single bucket, and the trial.
ghost use Rattle.std.specs.Prelude.{◌≡◌};
ghost use Rattle.terms.specs.Answer.{figure_or, on_figures};
ghost use Rattle.single.specs.Single.{bucket_of};
ghost use Rattle.services.specs.Services.{depth_for, depth_from_end_for, single_for, trial_for};
ghost use Rattle.exports.specs.Answers.{coded};

use crate::answers::{coded_depth, coded_refusal};
use services::figures::{depth_for, depth_from_end_for, single_for, trial_for};
use terms::{Bucket, Depth, Rate};

// The smallest depth that carries an order's trace at a rate; or refusal 1 to 5 of the order, 5 of the
// rate or 7.
pub fn metqoraz_depth(order: &[u8], rate: u32) -> u64
    ensures { result ≡ coded (depth_for rate order.now) }
{
    coded_depth(depth_for(order, Rate(rate)))
}

// The same where the order's demands stand in archive order, last period first.
pub fn metqoraz_depth_from_end(order: &[u8], rate: u32) -> u64
    ensures { result ≡ coded (depth_from_end_for rate order.now) }
{
    coded_depth(depth_from_end_for(order, Rate(rate)))
}

// The single bucket for an order: its rate and depth into the two numbers; answers its cost, or refusal
// 1 to 5 of the order or 7, and the numbers are as they were.
pub fn metqoraz_single(order: &[u8], rate: &mut u32, depth: &mut u32) -> u64
    ensures value { result ≡ coded (on_figures (λ s. s.cost) (single_for order.now)) }
    ensures rate_after { rate.new ≡ figure_or (on_figures (λ s. s.bucket.rate.0) (single_for order.now)) rate.old }
    ensures depth_after { depth.new ≡ figure_or (on_figures (λ s. s.bucket.depth.0) (single_for order.now)) depth.old }
{
    let priced = match single_for(order) {
        Ok(x) => x,
        Err(why) => return coded_refusal(why),
    };
    *rate = priced.bucket.rate.0;
    *depth = priced.bucket.depth.0;
    priced.cost
}

// The trial of a bucket on an order's trace: its spare into the number; answers what is discarded, or
// refusal 1 to 5 of the order or 5 of the bucket, and the number is as it was.
pub fn metqoraz_trial(order: &[u8], rate: u32, depth: u32, spare: &mut i64) -> u64
    ensures value { result ≡ coded (on_figures (λ t. t.over) (trial_for (bucket_of rate depth) order.now)) }
    ensures spare_after { spare.new ≡ figure_or (on_figures (λ t. t.spare) (trial_for (bucket_of rate depth) order.now)) spare.old }
{
    let bucket = Bucket {
        rate: Rate(rate),
        depth: Depth(depth),
    };
    let figures = match trial_for(order, bucket) {
        Ok(x) => x,
        Err(why) => return coded_refusal(why),
    };
    let least = figures.spare;
    *spare = least;
    figures.over as u64
}
