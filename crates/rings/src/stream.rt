// A key's slots at all rotations added to the words of its layout, for rings of more than 64 slots: the words of the key's ring are made one after the
// other, and each word of the layout is joined of two of them.
ghost use Rattle.std.specs.Prelude.{◌+◌, ◌*◌, ◌^◌, ◌<◌, ◌≤◌, length};
ghost use Rattle.rings.specs.Ring.{Shape};
ghost use Rattle.rings.specs.Keys.{Key};
ghost use Rattle.rings.specs.Stream.{RingWord, RingAdded, KeyAdded};

use crate::Ring;
use crate::keys::{place_of, ring_start};
use crate::rows::join;
use crate::slots::{bit_of, next_word, word_of};

// Word k of the ring that starts at bit s of word base: its places 64 k to 64 k + 63.
fn ring_word(g: Ring, used: &[u64], base: usize, s: usize, k: usize) -> u64
    requires shape { Shape g }
    requires words_in_bounds { g.words ≤ length used.now }
    requires base_lt_words { (base < g.words) × (s < 64) × (64 * k < g.n) }
    ensures { RingWord g used.now base s k result }
{
    let w = (base + (k << g.t)) & (g.words - 1);
    let next = next_word(g, w);
    join(used[w], used[next], s)
}

// Adds the ring that starts at slot first to work[to..to + count], from its place x on and round.
fn or_ring(g: Ring, work: &mut [u64], first: usize, x: usize, to: usize, count: usize)
    requires shape { Shape g }
    requires words_le_to { (g.words ≤ to) × (to + count ≤ length work.old) × (64 ≤ g.n) × (x < g.n) }
    ensures { RingAdded g work.old first x to count work.new }
{
    let base = word_of(g, first);
    let s = bit_of(g, first);
    let last = g.n / 64 - 1;
    let mut k = x / 64;
    let mut low = ring_word(g, work, base, s, k);
    for i in 0..count {
        k = (k + 1) & last;
        let high = ring_word(g, work, base, s, k);
        work[to + i] |= join(low, high, x % 64);
        low = high;
    }
}

// Adds key d's slots at all rotations to the words of its layout, work[to..to + count].
pub fn or_key(g: Ring, work: &mut [u64], d: u64, start: usize, to: usize, count: usize)
    requires shape { Shape g }
    requires words_le_to { (g.words ≤ to) × (to + count ≤ length work.old) × (64 * count < g.n + 64) × (64 < g.n) }
    requires key { Key start d }
    requires start_bound { start < 2 ^ 62 }
    ensures { KeyAdded g work.old d start to count work.new }
{
    let first = ring_start(d, start);
    let x = place_of(g, d, 0);
    or_ring(g, work, first, x, to, count);
}
