// How many buckets: k keys over a bucket size, rounded half up and made odd.
ghost use Rattle.std.specs.Prelude.{◌≡◌, ◌<◌, ◌≤◌, max};
ghost use Rattle.rules.specs.BucketCount.{size_cap, size_fits, half_up, odd_up};
ghost use Rattle.rules.specs.Answers.{said_count, count_answer};
ghost use Rattle.geometry.specs.Small.{Small};

use integers::power::power_of_two;
use rules::Refusal;

// The largest bucket size.
#[tactic(auto, unfolding(rules::specs::BucketCount::size_cap))]
fn size_cap(log2_slice_len: u64) -> u64
    requires { log2_slice_len ≤ 16 }
    ensures { (result ≡ size_cap log2_slice_len) × (result ≤ 64) }
{
    (power_of_two(log2_slice_len) / 8).min(64)
}

// Whether a size is from 1 to cap, which no NaN is.
fn size_fits(cap: u64, size: f64) -> bool
    requires { cap ≤ 64 }
    ensures { result ≡ size_fits cap size }
{
    1.0 <= size && size <= cap as f64
}

// q to the nearest whole number, halves upward.
fn rounded(q: f64) -> u64
    requires { Small q }
    ensures { (result ≡ half_up q) × (result ≤ 67108865) }
{
    let t = std::num::truncating_f64_to_u64(q);
    if q < (t as f64) + 0.5 { t } else { t + 1 }
}

// At least 1, and odd.
#[tactic(auto, unfolding(rules::specs::BucketCount::odd_up))]
fn odd_up(n: u64) -> u64
    requires { n ≤ 67108865 }
    ensures { result ≡ odd_up (max 1 n) }
{
    if n == 0 { 1 } else { n + (1 - n % 2) }
}

// The number of buckets for k keys at a bucket size.
pub fn bucket_count(log2_slice_len: u64, k: u64, size: f64) -> Result<u64, Refusal>
    ensures { said_count result ≡ count_answer log2_slice_len k size }
{
    if log2_slice_len < 3 || 16 < log2_slice_len {
        return Err(Refusal::SliceLen);
    }
    if !size_fits(size_cap(log2_slice_len), size) {
        return Err(Refusal::BucketSize);
    }
    if 67_108_864 < k {
        return Err(Refusal::Keys);
    }
    Ok(odd_up(rounded((k as f64) / size)))
}
