// The limits of document 01, under the names of the specification's table.
pub const DEMAND_LIMIT: u16 = 65_535;

pub const RATE_LIMIT: u32 = 4095;

pub const DEPTH_LIMIT: u32 = 1_000_000;

pub const PRICE_LIMIT: u32 = 65_535;

pub const FEE_LIMIT: u32 = 1_000_000_000;

pub const PARTS_LIMIT: u32 = 1000;

pub const TRACE_LIMIT: usize = 512;

pub const METER_LIMIT: u32 = 1_000_000;

pub const TOTAL_LIMIT: u64 = 100_000_000_000;

pub const COST_LIMIT: u64 = 100_000_000_000_000;
