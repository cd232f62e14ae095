// The meter: a bucket period by period, on what is offered, with its running totals; and a meter
// over a run of demands.
#![tactic(auto)]

mod meters;
mod runs;

pub use meters::{Meter, Offered, offer, open_meter};
pub use runs::meter_run;
