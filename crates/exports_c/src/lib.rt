// The C library: each function of `exports`, under its name, as a C function. A crate is a library or a C library, so they stand twice.
#![tactic(auto)]

pub mod asking;
pub mod checking;
pub mod files;
pub mod sizing;
pub mod sweeping;
