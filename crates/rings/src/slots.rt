// Where the ring has a slot.
ghost use Rattle.std.specs.Prelude.{◌≡◌, ◌+◌, ◌%◌, ◌^◌, ◌<◌};
ghost use Rattle.rings.specs.Ring.{Shape, Word, word_of, bit_of};

use crate::Ring;

// The word that has slot p.
pub fn word_of(g: Ring, p: usize) -> usize
    requires { Shape g }
    ensures { Word g.words (word_of g.t g.words p) result }
{
    (((p >> g.t) / 64 << g.t) + (p & ((1usize << g.t) - 1))) & (g.words - 1)
}

// The word of the next column beside word w.
pub fn next_word(g: Ring, w: usize) -> usize
    requires shape { Shape g }
    requires w_lt_words { w < g.words }
    ensures { Word g.words ((w + 2 ^ g.t) % g.words) result }
{
    (w + (1usize << g.t)) & (g.words - 1)
}

// The bit that slot p has in its word.
pub fn bit_of(g: Ring, p: usize) -> usize
    requires { Shape g }
    ensures { (result ≡ bit_of g.t p) × (result < 64) }
{
    (p >> g.t) % 64
}
