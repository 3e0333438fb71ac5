// Rule S's view of rule G: a level's ring, and a bucket's hashes as ring keys.
#![tactic(auto)]

pub mod fill;
pub mod gather;
pub mod level;
