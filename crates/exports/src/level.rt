// What a call hands over in plain numbers.
ghost use Rattle.std.specs.Prelude.{◌≡◌};
ghost use Rattle.exports.specs.Level.{settings_of};

use rules::Settings;

// A level's settings.
pub fn settings_of(m: u64, log2_slice_len: u64, ll: u64, sb: u64, buckets: u64) -> Settings
    ensures { result ≡ settings_of m log2_slice_len ll sb buckets }
{
    Settings {
        m,
        log2_slice_len,
        ll,
        sb,
        buckets,
    }
}
