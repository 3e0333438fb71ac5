// Where a finished level has its keys.
ghost use Rattle.std.specs.Prelude.{◌≡◌};
ghost use Rattle.rules.specs.Answers.{lookup_answer};
ghost use Rattle.exports.specs.Level.{settings_of};
ghost use Rattle.exports.specs.Told.{number_told, slot_told};
ghost use Rattle.exports.specs.Positions.{positions_number, positions_slots};

// Looks a hash up. 0: slot has its slot, or 2^64 - 1 where its bucket was bumped.
#[unsafe(no_mangle)]
pub extern "C" fn phastr_lookup(
    m: u64,
    log2_slice_len: u64,
    ll: u64,
    sb: u64,
    buckets: u64,
    seeds: &[u16],
    hash: u64,
    slot: &mut u64,
) -> u64
    ensures answer { result ≡ number_told (lookup_answer (settings_of m log2_slice_len ll sb buckets) seeds.now hash) }
    ensures found { slot.new ≡ slot_told (lookup_answer (settings_of m log2_slice_len ll sb buckets) seeds.now hash) slot.old }
{
    exports::asking::phastr_lookup(m, log2_slice_len, ll, sb, buckets, seeds, hash, slot)
}

// Looks hashes up, each into its place of slots. 13 also where there are not as many slots as hashes.
#[unsafe(no_mangle)]
pub extern "C" fn phastr_positions(
    m: u64,
    log2_slice_len: u64,
    ll: u64,
    sb: u64,
    buckets: u64,
    seeds: &[u16],
    hashes: &[u64],
    slots: &mut [u64],
) -> u64
    ensures answer { result ≡ positions_number (settings_of m log2_slice_len ll sb buckets) seeds.now hashes.now slots.old }
    ensures found { slots.new ≡ positions_slots (settings_of m log2_slice_len ll sb buckets) seeds.now hashes.now slots.old }
{
    exports::asking::phastr_positions(m, log2_slice_len, ll, sb, buckets, seeds, hashes, slots)
}
