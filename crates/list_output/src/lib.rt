// What the sweep list program prints, written into a lent buffer. Each function answers the place after what it wrote.
#![tactic(auto)]

mod lines;
mod text;

pub use text::{done_text, refused_line, refused_text};
