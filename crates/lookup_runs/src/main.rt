// Runs `lookup` at each refusal and just beside, in the order of the checks, and on the document's listing. One line a case: m, log2_slice_len,
// ll, sb, B, the number of seeds, the hash; and the answer. `expected.py` makes the file `stdout`.
#![tactic(auto)]

use rules::Settings;

// Looks the hash up under the settings m, log2_slice_len, ll, sb and B, and writes the line.
fn run(rt: &impl Print, settings: [u64; 5], seeds: &[u16], hash: u64) {
    let [m, log2_slice_len, ll, sb, buckets] = settings;
    let s = Settings {
        m,
        log2_slice_len,
        ll,
        sb,
        buckets,
    };
    let _ = print!(rt;
        "{m} {log2_slice_len} {ll} {sb} {buckets} {} {hash} ",
        seeds.len()
    );
    let _ = match lookup::lookup(s, seeds, hash) {
        Ok(None) => println!(rt; "bumped"),
        Ok(Some(x)) => println!(rt; "at {x}"),
        Err(why) => println!(rt; "refused {}", why.number()),
    };
}

// The listing: its keys, the ends of its buckets, and hashes of bucket 2.
fn listing(rt: &impl Print) {
    for hash in [
        0x4000_0000_0000_0000,
        0x4000_0000_0000_0003,
        0x8000_0000_0000_0000,
        0,
        0x5555_5555_5555_5555,
        0x5555_5555_5555_5556,
        0xaaaa_aaaa_aaaa_aaaa,
        0xaaaa_aaaa_aaaa_aaab,
        0xffff_ffff_ffff_ffff,
    ] {
        run(rt, [7, 3, 0, 4, 3], &[3, 4, 0], hash);
    }
}

// Seeds of 2^sb or more, with one layout and with four, where slices are longer than 2^sb and where they are shorter.
fn large_seeds(rt: &impl Print) {
    for (settings, hash) in [
        ([7, 3, 0, 4, 3], 0x4000_0000_0000_0003),
        ([7, 3, 0, 4, 3], 0x8000_0000_0000_0000),
        ([7, 3, 0, 4, 3], 0xffff_ffff_ffff_ffff),
        ([2048, 10, 2, 4, 3], 0x0123_4567_89ab_cdef),
        ([2048, 10, 2, 4, 3], 0x8765_4321_0fed_cba9),
        ([2048, 10, 2, 4, 3], 0xfedc_ba98_7654_3210),
    ] {
        run(rt, settings, &[16, 19, 65535], hash);
    }
}

// Each limit of 1 to 4, on both sides.
fn limits_of_exponents(rt: &impl Print) {
    for settings in [
        [7, 3, 0, 1, 1],
        [7, 3, 0, 2, 1],
        [7, 3, 0, 16, 1],
        [7, 3, 0, 17, 1],
        [7, 3, 4, 4, 1],
        [7, 3, 3, 4, 1],
        [7, 2, 0, 4, 1],
        [7, 16, 0, 4, 1],
        [7, 17, 0, 4, 1],
        [7, 3, 7, 8, 1],
        [7, 16, 2, 4, 1],
        [7, 16, 3, 4, 1],
    ] {
        run(rt, settings, &[5], 9);
    }
}

// Each limit of 5, 6 and 13; and settings that 7 would refuse, which a lookup takes.
fn limits_of_counts(rt: &impl Print) {
    let four = [5, 6, 7, 8];
    for (settings, seeds) in [
        ([0, 3, 0, 4, 1], &four[..1]),
        ([1, 3, 0, 4, 1], &four[..1]),
        ([134_217_728, 16, 2, 16, 3], &four[..3]),
        ([134_217_729, 16, 2, 16, 3], &four[..3]),
        ([7, 3, 0, 4, 0], &four[..0]),
        ([7, 3, 0, 4, 2], &four[..2]),
        ([7, 3, 0, 4, 67_108_865], &four[..]),
        ([7, 3, 0, 4, 67_108_867], &four[..]),
        ([7, 3, 0, 4, 3], &four[..0]),
        ([7, 3, 0, 4, 3], &four[..2]),
        ([7, 3, 0, 4, 3], &four[..3]),
        ([7, 3, 0, 4, 3], &four[..]),
        ([4103, 3, 0, 4, 1], &four[..1]),
        ([4104, 3, 0, 4, 1], &four[..1]),
    ] {
        run(rt, settings, seeds, 0xfedc_ba98_7654_3210);
    }
}

// Two numbers that apply at once: the smaller comes back.
fn two_at_once(rt: &impl Print) {
    for settings in [
        [7, 3, 1, 1, 1],
        [7, 2, 4, 4, 1],
        [7, 17, 3, 4, 1],
        [0, 16, 3, 4, 1],
        [0, 3, 0, 4, 2],
        [7, 3, 0, 4, 2],
        [0, 17, 7, 1, 2],
    ] {
        run(rt, settings, &[5], 9);
    }
}

fn main(rt: HostRuntime) {
    listing(&rt);
    large_seeds(&rt);
    limits_of_exponents(&rt);
    limits_of_counts(&rt);
    two_at_once(&rt);
}
