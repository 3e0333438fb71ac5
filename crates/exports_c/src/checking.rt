// The check of a finished level.
ghost use Rattle.std.specs.Prelude.{◌≡◌};
ghost use Rattle.level_check.specs.Check.{level_of, check_answer, check_scratch};
ghost use Rattle.exports.specs.Level.{settings_of};
ghost use Rattle.exports.specs.Told.{number_told, bucket_told};

// Checks a level that a sweep, ours or another, has made. 0: it is sound; 29: bucket has the lowest at which a slot is met
// twice. The scratch is zero afterwards, unless one of 1 to 13 refuses.
#[unsafe(no_mangle)]
pub extern "C" fn phastr_check_level(
    m: u64,
    log2_slice_len: u64,
    ll: u64,
    sb: u64,
    buckets: u64,
    hashes: &[u64],
    begins: &[u32],
    seeds: &[u16],
    bitmap: &[u64],
    scratch: &mut [u64],
    bucket: &mut u64,
) -> u64
    ensures answer { result ≡ number_told (check_answer (level_of (settings_of m log2_slice_len ll sb buckets) hashes.now begins.now)
        seeds.now bitmap.now scratch.old) }
    ensures named { bucket.new ≡ bucket_told (check_answer (level_of (settings_of m log2_slice_len ll sb buckets) hashes.now begins.now)
        seeds.now bitmap.now scratch.old) bucket.old }
    ensures zeroed { scratch.new ≡ check_scratch (level_of (settings_of m log2_slice_len ll sb buckets) hashes.now begins.now)
        seeds.now bitmap.now scratch.old }
{
    exports::checking::phastr_check_level(
        m,
        log2_slice_len,
        ll,
        sb,
        buckets,
        hashes,
        begins,
        seeds,
        bitmap,
        scratch,
        bucket,
    )
}
