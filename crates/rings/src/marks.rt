// One slot of the ring marked and unmarked.
ghost use Rattle.std.specs.Prelude.{◌≡◌, ◌≤◌, length};
ghost use Rattle.rings.specs.Ring.{Shape};
ghost use Rattle.rings.specs.Marks.{ring_unmarked, Took};

use crate::Ring;
use crate::slots::{bit_of, word_of};

// Unmarks slot p.
pub fn unmark(g: Ring, work: &mut [u64], p: usize)
    requires shape { Shape g }
    requires words_in_bounds { g.words ≤ length work.old }
    ensures { work.new ≡ ring_unmarked g.t g.words work.old p }
{
    let w = word_of(g, p);
    let b = bit_of(g, p);
    work[w] &= !(1 << b);
}

// Marks slot p if it is free; tells whether it was.
pub fn take_slot(g: Ring, work: &mut [u64], p: usize) -> bool
    requires shape { Shape g }
    requires words_in_bounds { g.words ≤ length work.old }
    ensures { Took g work.old p result work.new }
{
    let w = word_of(g, p);
    let b = bit_of(g, p);
    let x = work[w];
    if (x >> b) % 2 == 1 {
        return false;
    }
    work[w] = x | (1 << b);
    true
}
