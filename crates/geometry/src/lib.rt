// Rule G: the checks of settings, what follows from settings, where a hash goes, and how many buckets there should be.
#![tactic(auto)]

pub mod count;
pub mod place;
pub mod settings;
pub mod shape;
pub mod usual;
