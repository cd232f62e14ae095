// The one bucket inside a tariff's caps that carries a trace at least cost.
#![tactic(auto)]

pub mod costs;
mod preference;
pub mod rates;
mod singles;

pub use costs::Priced;
pub use singles::single;
