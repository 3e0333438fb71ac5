// The words that the look for the best free rotation reads: a bucket's ring keys, and which of its rotations are free.
ghost use Rattle.ring_keys.specs.Gathered.{Gathered};
ghost use Rattle.search.specs.Preparing.{Preparing};

use crate::usual::literal_ring;
use best::rows::Rows;
use geometry::shape::Geometry;
use ring_keys::fill::fill_keys;
use ring_keys::gather::gather;
use rings::Ring;
use rings::free::fill_free;

// Writes the ring keys of the bucket's hashes and its free words, and tells how many rotations are free. Where a layout has one free word both come of one
// pass; either instance of `gather` is called from nowhere else, so that it is inlined.
pub fn prepare(
    g: Geometry,
    ring: Ring,
    keys: &[u64],
    start: usize,
    work: &mut [u64],
    rows: Rows,
) -> u64
    requires { Preparing g ring keys.now start rows.at rows.to rows.count work.old }
    ensures { Gathered g.settings ring keys.now start rows.at rows.to rows.count work.old result work.new }
{
    let Rows { at, to, count, .. } = rows;
    if g.is_usual() {
        return gather::<true>(g.literal(), literal_ring(ring), keys, start, work, at, to);
    }
    if ring.n <= 64 {
        return gather::<false>(g, ring, keys, start, work, at, to);
    }
    fill_keys(g, keys, start, work, at);
    fill_free(
        ring,
        work,
        at,
        keys.len(),
        g.layouts as usize,
        start,
        to,
        count,
    )
}
