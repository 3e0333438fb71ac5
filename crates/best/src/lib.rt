// The best free rotation of a bucket: the least by cost, then layout, then rotation.
#![tactic(auto)]

pub mod all;
pub mod listed;
pub mod many;
pub mod price;
pub mod rows;
pub mod wraps;

// Rotation j of layout r and what it costs.
#[derive(Clone, Copy)]
pub struct Best {
    pub cost: u64,
    pub r: usize,
    pub j: usize,
}

// Where the look for the least begins: no rotation costs as much. An Option would be no plainer in the loops, and the callers above get one.
pub const NOTHING: Best = Best {
    cost: u64::MAX,
    r: 0,
    j: 0,
};
