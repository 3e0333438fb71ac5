// The check of a finished level.
ghost use Rattle.std.specs.Prelude.{◌≡◌};
ghost use Rattle.level_check.specs.Check.{level_of, said_matched, check_answer, check_scratch};
ghost use Rattle.exports.specs.Level.{settings_of};
ghost use Rattle.exports.specs.Told.{number_told, bucket_told};

use crate::level::settings_of;
use crate::telling::tell_stop;
use level_check::check_level;
use rules::Stop;

// Tells how a check ended: its number, and the bucket that it names.
fn tell(done: Result<(), Stop>, bucket: &mut u64) -> u64
    ensures answer { result ≡ number_told (said_matched done) }
    ensures named { bucket.new ≡ bucket_told (said_matched done) bucket.old }
{
    match done {
        Ok(()) => 0,
        Err(stop) => tell_stop(stop, bucket),
    }
}

// Checks a level that a sweep, ours or another, has made. 0: it is sound; 29: bucket has the lowest at which a slot is met
// twice. The scratch is zero afterwards, unless one of 1 to 13 refuses.
pub fn phastr_check_level(
    m: u64,
    log2_slice_len: u64,
    ll: u64,
    sb: u64,
    buckets: u64,
    hashes: &[u64],
    begins: &[u32],
    seeds: &[u16],
    bitmap: &[u64],
    scratch: &mut [u64],
    bucket: &mut u64,
) -> u64
    ensures answer { result ≡ number_told (check_answer (level_of (settings_of m log2_slice_len ll sb buckets) hashes.now begins.now)
        seeds.now bitmap.now scratch.old) }
    ensures named { bucket.new ≡ bucket_told (check_answer (level_of (settings_of m log2_slice_len ll sb buckets) hashes.now begins.now)
        seeds.now bitmap.now scratch.old) bucket.old }
    ensures zeroed { scratch.new ≡ check_scratch (level_of (settings_of m log2_slice_len ll sb buckets) hashes.now begins.now)
        seeds.now bitmap.now scratch.old }
{
    let s = settings_of(m, log2_slice_len, ll, sb, buckets);
    tell(
        check_level(s, hashes, begins, seeds, bitmap, scratch),
        bucket,
    )
}
