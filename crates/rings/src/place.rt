// The slots of a bucket's keys at a rotation, marked in the ring and in the bitmap.
ghost use Rattle.std.specs.Prelude.{◌≡◌, ◌+◌, ◌^◌, ◌<◌, ◌≤◌, length};
ghost use Rattle.rings.specs.Ring.{Shape};
ghost use Rattle.rings.specs.Keys.{Keys};
ghost use Rattle.rings.specs.Parts.{part};
ghost use Rattle.rings.specs.Place.{unmarked_to, MarkedUpTo, Placed, Fitted, map_to, InMap};

use crate::Ring;
use crate::keys::slot_of;
use crate::marks::{take_slot, unmark};

// Marks the slots of the keys at work[at..at + size] at rotation j, one after the other, up to one that is marked already; tells how many.
fn mark_keys(g: Ring, work: &mut [u64], at: usize, size: usize, start: usize, j: usize) -> usize
    requires shape { Shape g }
    requires words_le_at { (g.words ≤ at) × (at + size ≤ length work.old) }
    requires keys { Keys (part work.old at size) start }
    requires start_bound { (start < 2 ^ 62) × (j < 65536) }
    ensures { MarkedUpTo g work.old (part work.old at size) start j size result work.new }
{
    for i in 0..size {
        let p = slot_of(g, work[at + i], j, start);
        if !take_slot(g, work, p) {
            return i;
        }
    }
    size
}

// Unmarks the slots of the first count keys at work[at..at + size] at rotation j, from the last to the first.
fn unmark_keys(
    g: Ring,
    work: &mut [u64],
    at: usize,
    size: usize,
    start: usize,
    j: usize,
    count: usize,
)
    requires shape { Shape g }
    requires words_le_at { (g.words ≤ at) × (at + size ≤ length work.old) × (count ≤ size) }
    requires keys { Keys (part work.old at size) start }
    requires start_bound { (start < 2 ^ 62) × (j < 65536) }
    ensures { work.new ≡ unmarked_to g work.old (part work.old at size) start j count }
{
    for i in (0..count).rev() {
        let p = slot_of(g, work[at + i], j, start);
        unmark(g, work, p);
    }
}

// Marks the slots of the keys at work[at..at + size] at rotation j, and tells that it did; where one is marked already, or two are one, nothing changes.
pub fn place(g: Ring, work: &mut [u64], at: usize, size: usize, start: usize, j: usize) -> bool
    requires shape { Shape g }
    requires words_le_at { (g.words ≤ at) × (at + size ≤ length work.old) }
    requires keys { Keys (part work.old at size) start }
    requires start_bound { (start < 2 ^ 62) × (j < 65536) }
    ensures { Placed g work.old (part work.old at size) start j size result work.new }
{
    let k = mark_keys(g, work, at, size, start, j);
    if k == size {
        return true;
    }
    unmark_keys(g, work, at, size, start, j, k);
    false
}

// Whether the keys' slots at rotation j are free and no two are one. Nothing changes.
pub fn fits(g: Ring, work: &mut [u64], at: usize, size: usize, start: usize, j: usize) -> bool
    requires shape { Shape g }
    requires words_le_at { (g.words ≤ at) × (at + size ≤ length work.old) }
    requires keys { Keys (part work.old at size) start }
    requires start_bound { (start < 2 ^ 62) × (j < 65536) }
    ensures { (Fitted g work.old (part work.old at size) start j size result) × (work.new ≡ work.old) }
{
    let placed = place(g, work, at, size, start, j);
    if placed {
        unmark_keys(g, work, at, size, start, j, size);
    }
    placed
}

// Marks the keys' slots at rotation j in the bitmap.
pub fn mark_bitmap(g: Ring, keys: &[u64], start: usize, j: usize, bitmap: &mut [u64])
    requires shape { Shape g }
    requires keys { Keys keys.now start }
    requires start_bound { (start < 2 ^ 62) × (j < 65536) }
    requires in_map { InMap g keys.now start j (length bitmap.old) }
    ensures { bitmap.new ≡ map_to g bitmap.old keys.now start j (length keys.now) }
{
    for d in keys {
        let p = slot_of(g, *d, j, start);
        words::set_bit(bitmap, p);
    }
}
