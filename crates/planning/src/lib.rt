// Planning: from an order file to the series planned for it.
#![tactic(auto)]

pub mod planned_orders;
