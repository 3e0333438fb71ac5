// The groups: bucket b's keys are the hashes from begins[b] up to begins[b + 1].
#![tactic(auto)]

ghost use Rattle.std.specs.Prelude.{◌≡◌, ◌+◌, ◌-◌, ◌*◌, ◌^◌, ◌<◌, ◌≤◌, length, get_or, take, drop};
ghost use Rattle.groups.specs.Groups.{begin_of, size_in, Grouped};

// Where bucket b's keys begin.
pub fn begin_of(begins: &[u32], b: usize) -> usize
    requires { b < length begins.now }
    ensures { (result ≡ begin_of begins.now b) × (result < 2 ^ 32) }
{
    begins[b] as usize
}

// How many keys bucket b has.
pub fn size_of(begins: &[u32], b: usize) -> usize
    requires { Grouped begins.now b }
    ensures { (result ≡ size_in begins.now b) × (result < 2 ^ 32) }
{
    begin_of(begins, b + 1) - begin_of(begins, b)
}

// The keys of bucket b.
pub fn keys_of<'a>(hashes: &'a [u64], begins: &[u32], b: usize) -> &'a [u64]
    requires grouped { Grouped begins.now b }
    requires b_in_bounds { begin_of begins.now (b + 1) ≤ length hashes.now }
    ensures { result.now ≡ take (size_in begins.now b) (drop (begin_of begins.now b) hashes.now) }
{
    let lo = begin_of(begins, b);
    let hi = begin_of(begins, b + 1);
    &hashes[lo..hi]
}
