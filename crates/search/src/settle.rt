// The rotation that a bucket gets: its slots marked, and its seed.
ghost use Rattle.std.specs.Prelude.{◌≡◌, ◌<◌, ◌≤◌};
ghost use Rattle.rings.specs.Parts.{part};
ghost use Rattle.rings.specs.Place.{unmarked_to};
ghost use Rattle.search.specs.Settle.{Settling, MarkedBoth, Blank, Settled, SeedIs, cleared_to};

use crate::row::Row;
use crate::usual::{literal_ring, usual_ring};
use rings::Ring;
use rings::keys::slot_of;
use rings::marks::{take_slot, unmark};

// Marks the slots of a layout's keys at rotation j, in the ring and in the bitmap, one after the other, up to one that is marked already; tells how many.
fn mark_both(g: Ring, work: &mut [u64], row: Row, j: usize, bitmap: &mut [u64]) -> usize
    requires { Settling g work.old row.a row.size row.start j bitmap.old }
    ensures { MarkedBoth g work.old bitmap.old (part work.old row.a row.size) row.start j row.size result work.new bitmap.new }
{
    for i in 0..row.size {
        let p = slot_of(g, work[row.a + i], j, row.start);
        if !take_slot(g, work, p) {
            return i;
        }
        words::set_bit(bitmap, p);
    }
    row.size
}

// The same; the default shape's numbers are literals.
fn mark_slots(g: Ring, work: &mut [u64], row: Row, j: usize, bitmap: &mut [u64]) -> usize
    requires { Settling g work.old row.a row.size row.start j bitmap.old }
    ensures { MarkedBoth g work.old bitmap.old (part work.old row.a row.size) row.start j row.size result work.new bitmap.new }
{
    if usual_ring(g) {
        return mark_both(literal_ring(g), work, row, j, bitmap);
    }
    mark_both(g, work, row, j, bitmap)
}

// Unmarks the slots of the first `count` of these keys, from the last to the first.
fn unmark_both(g: Ring, work: &mut [u64], row: Row, j: usize, count: usize, bitmap: &mut [u64])
    requires settling { Settling g work.old row.a row.size row.start j bitmap.old }
    requires count_le_size { count ≤ row.size }
    ensures { (work.new ≡ unmarked_to g work.old (part work.old row.a row.size) row.start j count) × (bitmap.new ≡ cleared_to g bitmap.old (part work.old row.a row.size) row.start j count) }
{
    for i in (0..count).rev() {
        let p = slot_of(g, work[row.a + i], j, row.start);
        unmark(g, work, p);
        words::clear_bit(bitmap, p);
    }
}

// Marks the slots of a layout's keys at rotation j, in the ring and in the bitmap, and tells, as a set's `insert` does, that it did; where two keys meet nothing
// changes.
pub fn settle(g: Ring, work: &mut [u64], row: Row, j: usize, bitmap: &mut [u64]) -> bool
    requires settling { Settling g work.old row.a row.size row.start j bitmap.old }
    requires blank { Blank g bitmap.old (part work.old row.a row.size) row.start j }
    ensures { Settled g work.old bitmap.old (part work.old row.a row.size) row.start j row.size result work.new bitmap.new }
{
    let k = mark_slots(g, work, row, j, bitmap);
    if k == row.size {
        return true;
    }
    unmark_both(g, work, row, j, k, bitmap);
    false
}

// The seed of rotation j of layout r: seed 0 stands for a bucket without slots, so (0, 0) has the seed of a whole turn.
pub fn seed_of(g: Ring, layouts: usize, r: usize, j: usize) -> usize
    requires { (r < layouts) × (j < g.n) × (layouts ≤ 64) × (g.n ≤ 65536) }
    ensures { SeedIs g.n layouts r j result }
{
    if r + j == 0 {
        g.n * layouts
    } else {
        j * layouts + r
    }
}
