// The turns of a sweep: each takes a bucket, gives it its seed and marks its slots.
ghost use Rattle.std.specs.Prelude.{◌≡◌, List, ℕ, ◌+◌, ◌≤◌, ◌<◌, length};
ghost use Rattle.rules.specs.Order.{Input, input_of};
ghost use Rattle.rings.specs.Level.{level_ring};
ghost use Rattle.window.specs.Window.{state_of};
ghost use Rattle.sweep.specs.Sweeping.{Level, Buffers, Starting, Ending, Begun, Next, Ranging, Blank, Ran};
ghost use Rattle.sweep.specs.Serving.{Serves, Turn, Served};

use super::chunks::{chunk_count, chunk_gap, range_at};
use super::moving::{advance, load};
use geometry::shape::Geometry;
use groups::keys_of;
use ring_keys::level::ring_of;
use rings::Ring;
use rules::How;
use search::search;
use window::Window;
use window::rule::weight_table;

// Bucket b gets its seed.
fn serve(
    g: Geometry,
    ring: Ring,
    hashes: &[u64],
    begins: &[u32],
    table: &[u32],
    b: usize,
    z: usize,
    seeds: &mut [u16],
    bitmap: &mut [u64],
    work: &mut [u64],
) -> usize
    requires ring_value { ring ≡ level_ring g.settings }
    requires serves { Serves g hashes.now begins.now table.now b z seeds.old bitmap.old work.old }
    ensures { (i : Input) (pre : List ℕ) (lo hi k first : ℕ)
        → Level i g hashes.now begins.now table.now z
        → Buffers i pre lo hi k first z seeds.old bitmap.old work.old
        → Turn i pre lo hi k b first
        → Served i pre lo hi k b first z result seeds.new bitmap.new work.new }
{
    let keys = keys_of(hashes, begins, b);
    let v = search(g, ring, table, keys, b, z, bitmap, work);
    seeds[b] = v as u16;
    v
}

// The turns of the buckets from lo up to hi, with the ring loaded from slot `from` on and a window that the caller lends. There are no
// more turns than buckets. Where bumping is forbidden, `Err` names the bucket that gets 0.
pub fn take_turns(
    g: Geometry,
    ring: Ring,
    bump: bool,
    hashes: &[u64],
    begins: &[u32],
    table: &[u32],
    weights: &[i64; 64],
    lo: usize,
    hi: usize,
    from: usize,
    z: usize,
    window: &mut Window,
    seeds: &mut [u16],
    bitmap: &mut [u64],
    work: &mut [u64],
) -> Result<(), u64>
    requires ring_value { ring ≡ level_ring g.settings }
    requires begun { Begun g bump hashes.now begins.now table.now weights.now lo hi from z
        (state_of window.old) seeds.old bitmap.old work.old }
    ensures { (i : Input) (pre : List ℕ)
        → Starting i g bump hashes.now begins.now table.now weights.now pre lo hi from z
        (state_of window.old) seeds.old bitmap.old work.old
        → Ending i bump pre lo hi result seeds.new bitmap.new }
{
    let mut first_slot = from;
    for _turn in 0..hi {
        window.refill(begins, weights, hi);
        if window.is_empty() {
            return Ok(());
        }
        let oldest = window.oldest();
        let b = window.take(begins, weights);
        first_slot = advance(g, ring, work, bitmap, first_slot, oldest);
        let v = serve(g, ring, hashes, begins, table, b, z, seeds, bitmap, work);
        if v == 0 && !bump {
            return Err(b as u64);
        }
    }
    Ok(())
}

// The turns of the buckets from lo up to hi, with a blank window and the ring as the bitmap stands.
pub fn run_range(
    g: Geometry,
    ring: Ring,
    bump: bool,
    hashes: &[u64],
    begins: &[u32],
    table: &[u32],
    weights: &[i64; 64],
    lo: usize,
    hi: usize,
    z: usize,
    seeds: &mut [u16],
    bitmap: &mut [u64],
    work: &mut [u64],
) -> Result<(), u64>
    requires ring_value { ring ≡ level_ring g.settings }
    requires ranging { Ranging g bump hashes.now begins.now table.now weights.now lo hi z seeds.old bitmap.old work.old }
    ensures { (i : Input) (pre : List ℕ)
        → Next i g bump hashes.now begins.now table.now weights.now pre lo hi z seeds.old bitmap.old work.old
        → Ending i bump pre lo hi result seeds.new bitmap.new }
{
    let from = load(g, ring, work, bitmap, lo);
    let mut window = Window::new(lo);
    take_turns(
        g,
        ring,
        bump,
        hashes,
        begins,
        table,
        weights,
        lo,
        hi,
        from,
        z,
        &mut window,
        seeds,
        bitmap,
        work,
    )
}

// The turns of all buckets, range after range.
pub fn run(
    g: Geometry,
    weights: [i64; 7],
    how: How,
    hashes: &[u64],
    begins: &[u32],
    table: &[u32],
    z: usize,
    seeds: &mut [u16],
    bitmap: &mut [u64],
    work: &mut [u64],
) -> Result<(), u64>
    requires { Blank (input_of g.settings weights hashes.now begins.now table.now) g z seeds.old bitmap.old work.old }
    ensures { Ran (input_of g.settings weights hashes.now begins.now table.now) how result seeds.new bitmap.new }
{
    let ring = ring_of(g);
    let by_size = weight_table(weights);
    let bump = how.bump;
    let gap = chunk_gap(g);
    let chunks = chunk_count(g, gap, how.chunks);
    let ranges = 2 * chunks - 1;
    for k in 0..ranges {
        let span = range_at(g, gap, chunks, k);
        let lo = span.lo as usize;
        let hi = span.hi as usize;
        run_range(
            g, ring, bump, hashes, begins, table, &by_size, lo, hi, z, seeds, bitmap, work,
        )?;
    }
    Ok(())
}
