// The depth, also with its cause, the single bucket and the trial from an order file, as figures. Public
// only for this crate and for the calls in C and Rust.
ghost use Rattle.std.specs.Prelude.{◌≡◌};
ghost use Rattle.terms.specs.Refusals.{says};
ghost use Rattle.causes.specs.Cause.{explain_says};
ghost use Rattle.depth.specs.Depth.{depth_says};
ghost use Rattle.services.specs.Services.{depth_for, depth_from_end_for, explain_for, single_for, trial_for};

use bucket::{TrialFigures, trial};
use causes::{Explained, explain};
use depth::{depth_at, depth_from_end};
use order_file::ordered::Ordered;
use single::{Priced, single};
use terms::{Bucket, Depth, Rate, Refusal};

// The smallest depth that carries an order's trace at a rate; or refusal 1 to 5 of the order, 5 of the
// rate or 7.
pub fn depth_for(order: &[u8], rate: Rate) -> Result<Depth, Refusal>
    ensures { depth_says result ≡ depth_for rate.0 order.now }
{
    let order = Ordered::read(order)?;
    depth_at(order.trace(), rate, order.order().tariff)
}

// The same where the order's demands stand in archive order, last period first.
pub fn depth_from_end_for(order: &[u8], rate: Rate) -> Result<Depth, Refusal>
    ensures { depth_says result ≡ depth_from_end_for rate.0 order.now }
{
    let order = Ordered::read(order)?;
    depth_from_end(order.trace(), rate, order.order().tariff)
}

// The smallest depth that carries an order's trace at a rate, with its cause; or the same refusals.
pub fn explain_for(order: &[u8], rate: Rate) -> Result<Explained, Refusal>
    ensures { explain_says result ≡ explain_for rate.0 order.now }
{
    let order = Ordered::read(order)?;
    explain(order.trace(), rate, order.order().tariff)
}

// The single bucket for an order; or refusal 1 to 5 of the order or 7.
pub fn single_for(order: &[u8]) -> Result<Priced, Refusal>
    ensures { says result ≡ single_for order.now }
{
    let order = Ordered::read(order)?;
    single(order.trace(), order.order().tariff)
}

// The trial of a bucket on an order's trace; or refusal 1 to 5 of the order or 5 of the bucket.
pub fn trial_for(order: &[u8], bucket: Bucket) -> Result<TrialFigures, Refusal>
    ensures { says result ≡ trial_for bucket order.now }
{
    let order = Ordered::read(order)?;
    trial(bucket, order.order().tariff.factor, order.trace())
}
