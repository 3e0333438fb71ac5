// What a ring key has to say: its place in its ring, its entry of the table and its slot at a rotation.
ghost use Rattle.std.specs.Prelude.{◌≡◌, ◌+◌, ◌-◌, ◌*◌, ◌/◌, ◌^◌, ◌<◌, ◌≤◌, length};
ghost use Rattle.rings.specs.Ring.{Shape, Word};
ghost use Rattle.rings.specs.Keys.{place_at, entry_at, slot_at, Key, KeyRow};

use crate::Ring;
use crate::rows::{ring64, row64};

// The slots before the bucket's first one from which a ring key counts its ring's first.
const AHEAD: usize = 95;

// The slot that key d's ring starts at.
pub fn ring_start(d: u64, start: usize) -> usize
    requires key { Key start d }
    requires start_bound { start < 2 ^ 62 }
    ensures { result ≡ d / 2 ^ 32 + start - 95 }
{
    (d / 0x1_0000_0000) as usize + start - AHEAD
}

// The place in its ring that key d takes at rotation j.
pub fn place_of(g: Ring, d: u64, j: usize) -> usize
    requires shape { Shape g }
    requires j_bound { j < 65536 }
    ensures { Word g.n (place_at g d j) result }
{
    (((d % 0x1_0000_0000) as usize >> g.t) + j) & (g.n - 1)
}

// The entry of the table that has key d's price at rotation j.
pub fn entry_of(g: Ring, d: u64, j: usize) -> usize
    requires shape { Shape g }
    requires d_bound { (d < 2 ^ 63) × (j < 65536) }
    ensures { (result ≡ entry_at g d j) × (result < 2 ^ 32) }
{
    let e = d as usize;
    e / 0x1_0000_0000 + ((e + (j << g.t)) & ((g.n - 1) << g.t))
}

// The slot that key d takes at rotation j.
pub fn slot_of(g: Ring, d: u64, j: usize, start: usize) -> usize
    requires shape { Shape g }
    requires key { Key start d }
    requires start_bound { (start < 2 ^ 62) × (j < 65536) }
    ensures { result ≡ slot_at g start d j }
{
    entry_of(g, d, j) + start - AHEAD
}

// Bit j, for j below n: whether key d's slot at rotation 64 w + j is used.
pub fn key_row(g: Ring, used: &[u64], d: u64, start: usize, w: usize) -> u64
    requires shape { Shape g }
    requires words_in_bounds { g.words ≤ length used.now }
    requires key { Key start d }
    requires start_bound { (start < 2 ^ 62) × (64 * w < g.n) }
    ensures { KeyRow g used.now d start w result }
{
    let x = place_of(g, d, 64 * w);
    ring64(g, used, ring_start(d, start), x)
}

// The same at rotation 0 where n is 64: a row that is turned as a whole.
pub fn key_row_64(g: Ring, used: &[u64], d: u64, start: usize) -> u64
    requires shape { Shape g }
    requires words_in_bounds { g.words ≤ length used.now }
    requires key { Key start d }
    requires start_bound { (start < 2 ^ 62) × (g.n ≡ 64) }
    ensures { KeyRow g used.now d start 0 result }
{
    let x = ((d % 0x1_0000_0000) >> g.t) % 64;
    let row = row64(g, used, ring_start(d, start));
    (row >> x) | (row << ((64 - x) % 64))
}
