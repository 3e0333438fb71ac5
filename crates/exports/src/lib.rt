// What C and Rust call: the project's surface as functions on numbers and slices. Each that can refuse answers 0 or
// document 01's number. What else it has to say goes into lent places, which it keeps where it has nothing to say; the calls on
// level files leave zeros there.
#![tactic(auto)]

pub mod asking;
pub mod checking;
pub mod files;
mod level;
pub mod sizing;
pub mod sweeping;
mod telling;
