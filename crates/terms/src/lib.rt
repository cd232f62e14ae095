// The nouns that every part of the planner speaks in: rates, depths, their prices, the starting
// factor, the bucket, the tariff, and the numbered refusals.
#![tactic(auto)]

pub mod limits;
mod ranges;
mod refusal;

pub use ranges::{
    bucket_in_range, factor_in_range, fresh_in_range, periods_in_range, record_in_range,
    tariff_in_range,
};
pub use refusal::{Refusal, refusal_number};

// Tokens gained in each period. One token pays for one kilobit.
#[derive(Clone, Copy, PartialEq, Eq)]
pub struct Rate(pub u32);

// Tokens that a bucket holds at the most.
#[derive(Clone, Copy, PartialEq, Eq)]
pub struct Depth(pub u32);

// What one token of rate costs for one period.
#[derive(Clone, Copy)]
pub struct RatePrice(pub u32);

// What one token of depth costs for one period.
#[derive(Clone, Copy)]
pub struct DepthPrice(pub u32);

// The starting factor p/q: a fresh bucket holds that part of its depth.
#[derive(Clone, Copy)]
pub struct Factor {
    pub p: u32,
    pub q: u32,
}

#[derive(Clone, Copy, PartialEq, Eq)]
pub struct Bucket {
    pub rate: Rate,
    pub depth: Depth,
}

// A bucket of a plan and the length of its run.
#[derive(Clone, Copy, PartialEq, Eq)]
pub struct BucketRecord {
    pub periods: u32,
    pub bucket: Bucket,
}

// The seven figures of a tariff; the factor holds two of them.
#[derive(Clone, Copy)]
pub struct Tariff {
    pub rate_price: RatePrice,
    pub depth_price: DepthPrice,
    pub fee: u32,
    pub factor: Factor,
    pub rate_cap: Rate,
    pub depth_cap: Depth,
}
