// What the numbers of an input without errors of form ask for.
ghost use Rattle.std.specs.Prelude.{◌≡◌, true, false, ◌≤◌, length};
ghost use Rattle.std.proofs.lemmas.List.Edits.{sets};
ghost use Rattle.list_input.specs.Form.{well_formed};
ghost use Rattle.list_input.specs.Asked.{weight_of, settings_of, bump_of, weights_of, hashes_of, begins_of, over_size};

use crate::HEAD;
use rules::Settings;

// m, log2_slice_len, ll, sb, and after the weights B.
pub fn settings_of(ns: &[u64]) -> Settings
    requires { 13 ≤ length ns.now }
    ensures { result ≡ settings_of ns.now }
{
    Settings {
        m: ns[0],
        log2_slice_len: ns[1],
        ll: ns[2],
        sb: ns[3],
        buckets: ns[12],
    }
}

// The bump flag: 1 allows.
pub fn bump_of(ns: &[u64]) -> bool
    requires { 13 ≤ length ns.now }
    ensures { result ≡ bump_of ns.now }
{
    ns[4] == 1
}

// A weight: w ≥ 0 came as 2w, else -2w-1.
fn weight_of(n: u64) -> i64
    ensures { result ≡ weight_of n }
{
    let half = (n / 2) as i64;
    if n % 2 == 0 {
        return half;
    }
    -1 - half
}

// The seven weights, one by one: what std's `map` of an array promises leaves the list of its results to be proved element by element.
pub fn weights_of(ns: &[u64]) -> [i64; 7]
    requires { 13 ≤ length ns.now }
    ensures { result ≡ weights_of ns.now }
{
    [
        weight_of(ns[5]),
        weight_of(ns[6]),
        weight_of(ns[7]),
        weight_of(ns[8]),
        weight_of(ns[9]),
        weight_of(ns[10]),
        weight_of(ns[11]),
    ]
}

// 19, but for the work words: m > 1,024, B > 64, or over 128 keys. What is neither head nor key count is a hash.
pub fn over_size(ns: &[u64]) -> bool
    requires { well_formed ns.now ≡ true }
    ensures { result ≡ over_size ns.now }
{
    let buckets = ns[12];
    if ns[0] > 1024 || buckets > 64 {
        return true;
    }
    ns.len() - HEAD - buckets as usize > 128
}

// Takes the groups apart: the hashes, and where each bucket's keys begin and at last end. Answers how many hashes there are.
#[tactic(auto, using(crate::specs::AskedLaws::long_enough))]
pub fn split(ns: &[u64], hashes: &mut [u64; 128], begins: &mut [u32; 65]) -> usize
    requires ns_value { well_formed ns.now ≡ true }
    requires ns_value_2 { over_size ns.now ≡ false }
    ensures value { (result ≡ length (hashes_of ns.now)) × (result ≤ 128) }
    ensures hashes_after { hashes.new ≡ sets hashes.old 0 (hashes_of ns.now) }
    ensures begins_after { begins.new ≡ sets begins.old 0 (begins_of ns.now) }
{
    let mut h: usize = 0;
    let mut b: usize = 0;
    let mut keys = 0;
    for &n in &ns[HEAD..] {
        if keys > 0 {
            hashes[h] = n;
            h += 1;
            keys -= 1;
        } else {
            begins[b] = h as u32;
            b += 1;
            keys = n;
        }
    }
    begins[b] = h as u32;
    h
}
