// Whole numbers that are wider than a word, powers of two, and small choices between two numbers.
#![tactic(auto)]

pub mod choice;
pub mod power;
pub mod product;
