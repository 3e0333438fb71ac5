// The checks of settings, and what follows from them one by one.
ghost use Rattle.std.specs.Prelude.{◌≡◌, ◌<◌, ◌≤◌, OnOk};
ghost use Rattle.rules.specs.Geometry.{slice_len, log_len, slices, per_bucket};
ghost use Rattle.rules.specs.Good.{Good, Usable};
ghost use Rattle.rules.specs.Numbers.{first_of, lines_to6, lines_to7};
ghost use Rattle.rules.specs.Answers.{refused_by, said_checked, settings_answer};

use integers::power::{log2_up, power_of_two};
use rules::{Refusal, Settings};

// Refuses settings by the first of 1 to 6 that applies.
#[tactic(auto, unfolding(rules::specs::Numbers::first_of, rules::specs::Numbers::lines_to6, rules::specs::Numbers::line1, rules::specs::Numbers::line2, rules::specs::Numbers::line3, rules::specs::Numbers::line4, rules::specs::Numbers::line5, rules::specs::Numbers::line6,))]
pub fn check_to_6(s: Settings) -> Result<(), Refusal>
    ensures number { refused_by result ≡ first_of (lines_to6 s) }
    ensures low { refused_by result ≤ 6 }
    ensures usable { OnOk result (Usable s) }
{
    if s.sb < 2 || 16 < s.sb {
        return Err(Refusal::SeedBits);
    }
    if s.sb <= s.ll {
        return Err(Refusal::Layouts);
    }
    if s.log2_slice_len < 3 || 16 < s.log2_slice_len {
        return Err(Refusal::SliceLen);
    }
    if 6 < s.ll || 64 < s.log2_slice_len << s.ll {
        return Err(Refusal::LayoutBits);
    }
    if s.m < 1 || 134_217_728 < s.m {
        return Err(Refusal::Slots);
    }
    if s.buckets % 2 == 0 || 67_108_865 < s.buckets {
        return Err(Refusal::Buckets);
    }
    Ok(())
}

// log2 of the slice length l.
#[tactic(auto, using(rules::proofs::GeometryLaws::log_len_is))]
pub fn log2_len(s: Settings) -> u64
    requires { Usable s }
    ensures { (result ≡ log_len s) × (result ≤ 16) }
{
    log2_up(s.m / 2 + 1).min(s.log2_slice_len)
}

// The slice length l.
pub fn slice_len(s: Settings) -> u64
    requires { Usable s }
    ensures { (result ≡ slice_len s) × (1 ≤ result) × (result ≤ s.m) × (result ≤ 65536) }
{
    power_of_two(log2_len(s))
}

// The number of slices, ns = m + 1 - l.
pub fn slice_count(s: Settings) -> u64
    requires { Usable s }
    ensures { (result ≡ slices s) × (1 ≤ result) × (result ≤ s.m) }
{
    s.m + 1 - slice_len(s)
}

// p: the number of slices over that of the buckets, rounded up.
pub fn per_bucket(s: Settings) -> u64
    requires { Usable s }
    ensures { (result ≡ per_bucket s) × (result < 268435456) }
{
    (slice_count(s) + (s.buckets - 1)) / s.buckets
}

// Whether a sweep takes the settings: refuses them by the first of 1 to 7 that applies.
pub fn check_settings(s: Settings) -> Result<(), Refusal>
    ensures answer { said_checked result ≡ settings_answer s }
    ensures number { refused_by result ≡ first_of (lines_to7 s) }
    ensures low { refused_by result ≤ 7 }
    ensures good { OnOk result (Good s) }
    ensures usable { OnOk result (Usable s) }
{
    check_to_6(s)?;
    if 4096 < per_bucket(s) {
        return Err(Refusal::SlicesPerBucket);
    }
    Ok(())
}
