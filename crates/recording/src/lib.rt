// Recording: a plan that was found is written into bytes, read back, and each of its runs metered.
#![tactic(auto)]

mod metering;
pub mod recorded;

pub use metering::MeterTotals;
pub use recorded::{Booking, BookingRecords};
