// The used ring: a cyclic set of words that has the used bits of a stretch of slots, laid out so that the slots 2^t apart which a key can take are bits in a row.
#![tactic(auto)]

pub mod columns;
pub mod free;
pub mod keys;
pub mod marks;
pub mod place;
pub mod rows;
pub mod slots;
pub mod stream;

// The numbers of a ring: it has `words` words, and its rows go by steps of 2^t slots; a key has n slots to take, and a layout has `rotations` seeds.
#[derive(Clone, Copy)]
pub struct Ring {
    pub t: usize,
    pub words: usize,
    pub n: usize,
    pub rotations: usize,
}
