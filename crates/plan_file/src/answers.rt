// What a plan holds: its figures, and with them its bucket records.
ghost use Rattle.std.specs.Prelude.{◌≡◌};
ghost use Rattle.plan_file.specs.Plan.{figures_in};

use record_list::records::Records;

// T, the number of buckets and the cost.
#[derive(Clone, Copy)]
pub struct PlanFigures {
    pub periods: u32,
    pub buckets: u32,
    pub cost: u64,
}

// Recorded, document 01's term: what reading a plan gives.
#[derive(Clone, Copy)]
pub struct Recorded {
    pub periods: u32,
    pub cost: u64,
    pub buckets: Records,
}

impl Recorded {
    pub fn figures(&self) -> PlanFigures
        ensures { result ≡ figures_in self.now }
    {
        let buckets = self.buckets.as_slice().len() as u32;
        PlanFigures {
            periods: self.periods,
            buckets,
            cost: self.cost,
        }
    }
}
