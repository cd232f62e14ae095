// Booking: the calls that lead from an order file to a plan that is recorded, read back and metered,
// in one call.
#![tactic(auto)]

mod bookings;
mod calls;

pub use bookings::book;
pub use recording::{Booking, MeterTotals};
