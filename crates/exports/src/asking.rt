// Where a finished level has its keys.
ghost use Rattle.std.specs.Prelude.{◌≡◌, map, length};
ghost use Rattle.rules.specs.Answers.{refused_by, lookup_answer};
ghost use Rattle.exports.specs.Level.{settings_of};
ghost use Rattle.exports.specs.Told.{number_told, slot_told};
ghost use Rattle.exports.specs.Positions.{slot_of, positions_number, positions_slots};

use crate::level::settings_of;
use crate::telling::number;
use geometry::settings::check_to_6;
use geometry::shape::Geometry;
use lookup::{lookup, lookup_in};
use rules::{Refusal, Settings};

// The slot of a hash whose bucket was bumped: the C interface has one number for a slot.
const BUMPED: u64 = u64::MAX;

// Looks a hash up. 0: slot has its slot, or 2^64 - 1 where its bucket was bumped.
pub fn phastr_lookup(
    m: u64,
    log2_slice_len: u64,
    ll: u64,
    sb: u64,
    buckets: u64,
    seeds: &[u16],
    hash: u64,
    slot: &mut u64,
) -> u64
    ensures answer { result ≡ number_told (lookup_answer (settings_of m log2_slice_len ll sb buckets) seeds.now hash) }
    ensures found { slot.new ≡ slot_told (lookup_answer (settings_of m log2_slice_len ll sb buckets) seeds.now hash) slot.old }
{
    match lookup(settings_of(m, log2_slice_len, ll, sb, buckets), seeds, hash) {
        Ok(found) => {
            *slot = found.unwrap_or(BUMPED);
            0
        }
        Err(why) => why.number(),
    }
}

// The slot of a hash, or BUMPED.
fn slot_in(g: Geometry, seeds: &[u16], hash: u64) -> u64
    requires { length seeds.now ≡ g.settings.buckets }
    ensures { result ≡ slot_of g.settings seeds.now hash }
{
    lookup_in(g, seeds, hash).unwrap_or(BUMPED)
}

// The slots of the hashes, each into its place.
fn fill_in(g: Geometry, seeds: &[u16], hashes: &[u64], slots: &mut [u64])
    requires seeds_len { length seeds.now ≡ g.settings.buckets }
    requires slots_len { length slots.old ≡ length hashes.now }
    ensures { slots.new ≡ map (slot_of g.settings seeds.now) hashes.now }
{
    for (i, hash) in hashes.iter().enumerate() {
        slots[i] = slot_in(g, seeds, *hash);
    }
}

// The same, with the numbers of the default shape as literals where the geometry has it: they are folded only in a call of their own.
fn fill_slots(g: Geometry, seeds: &[u16], hashes: &[u64], slots: &mut [u64])
    requires seeds_len { length seeds.now ≡ g.settings.buckets }
    requires slots_len { length slots.old ≡ length hashes.now }
    ensures { slots.new ≡ map (slot_of g.settings seeds.now) hashes.now }
{
    if g.is_usual() {
        fill_in(g.literal(), seeds, hashes, slots);
    } else {
        fill_in(g, seeds, hashes, slots);
    }
}

// The slots of the hashes, in a level of these settings.
fn positions(s: Settings, seeds: &[u16], hashes: &[u64], slots: &mut [u64]) -> Result<(), Refusal>
    ensures number { refused_by result ≡ positions_number s seeds.now hashes.now slots.old }
    ensures found { slots.new ≡ positions_slots s seeds.now hashes.now slots.old }
{
    check_to_6(s)?;
    if seeds.len() as u64 != s.buckets || slots.len() != hashes.len() {
        return Err(Refusal::Lengths);
    }
    fill_slots(Geometry::new(s), seeds, hashes, slots);
    Ok(())
}

// Looks hashes up, each into its place of slots. 13 also where there are not as many slots as hashes.
pub fn phastr_positions(
    m: u64,
    log2_slice_len: u64,
    ll: u64,
    sb: u64,
    buckets: u64,
    seeds: &[u16],
    hashes: &[u64],
    slots: &mut [u64],
) -> u64
    ensures answer { result ≡ positions_number (settings_of m log2_slice_len ll sb buckets) seeds.now hashes.now slots.old }
    ensures found { slots.new ≡ positions_slots (settings_of m log2_slice_len ll sb buckets) seeds.now hashes.now slots.old }
{
    number(positions(
        settings_of(m, log2_slice_len, ll, sb, buckets),
        seeds,
        hashes,
        slots,
    ))
}
