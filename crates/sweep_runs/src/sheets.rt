// The sheets P3 to P9 of document 01, a level without keys, and one of three bitmap words.
use super::lending::{case, in_one, level};
use rules::Settings;

// P3 to P7: one bucket.
fn one_bucket(rt: &impl Print, m: u64, sb: u64, bump: bool, hashes: &[u64], begins: &[u32]) {
    case(
        rt,
        level(m, sb, 1),
        [0i64; 7],
        in_one(bump),
        hashes,
        begins,
        log_table::house(),
        2048,
        1,
        1,
        3000,
    );
}

// P8 and P9: the listing's input.
fn listing(rt: &impl Print, weight: i64) {
    case(
        rt,
        level(7, 4, 3),
        [weight, 0, 0, 0, 0, 0, 0],
        in_one(true),
        &[
            0x4000_0000_0000_0000,
            0x4000_0000_0000_0003,
            0x8000_0000_0000_0000,
        ],
        &[0, 2, 3, 3],
        log_table::house(),
        2048,
        3,
        1,
        3000,
    );
}

// 130 slots, two layouts, and equal keys in bucket 3.
fn three_words(rt: &impl Print, bump: bool) {
    let s = Settings {
        m: 130,
        log2_slice_len: 5,
        ll: 1,
        sb: 4,
        buckets: 5,
    };
    let hashes = [
        0x0123_4567_89ab_cdefu64,
        0x1111_2222_3333_4444,
        0x2468_ace0_1357_9bdf,
        0x3000_0000_0000_0001,
        0x4002_0600_0810_0a0c,
        0x5f5f_1e1e_2d2d_3c3c,
        0x6666_7777_8888_9999,
        0x7654_3210_fedc_ba98,
        0x8000_0000_0000_0000,
        0x8fff_ffff_ffff_ffff,
        0xa5a5_5a5a_a5a5_5a5a,
        0xa5a5_5a5a_a5a5_5a5a,
        0xd1d2_d3d4_d5d6_d7d8,
        0xe0e1_e2e3_e4e5_e6e7,
        0xfedc_ba98_7654_3210,
    ];
    case(
        rt,
        s,
        [500, 1500, 2500, 3500, 4500, 5500, 6500],
        in_one(bump),
        &hashes,
        &[0, 4, 6, 10, 12, 15],
        log_table::house(),
        2048,
        5,
        3,
        4000,
    );
}

pub fn all(rt: &impl Print) {
    // P3, P4, P5
    one_bucket(rt, 7, 4, true, &[0], &[0, 1]);
    one_bucket(rt, 7, 4, true, &[0, 0x4000_0000_0000_0003], &[0, 2]);
    one_bucket(rt, 7, 4, true, &[0, 0], &[0, 2]);
    one_bucket(rt, 7, 4, false, &[0, 0], &[0, 2]);
    // bumping forbidden where none is bumped
    one_bucket(rt, 7, 4, false, &[0, 0x4000_0000_0000_0003], &[0, 2]);
    // P6, P7
    one_bucket(rt, 7, 2, true, &[0], &[0, 1]);
    one_bucket(rt, 1, 4, true, &[0], &[0, 1]);
    // P8, P9
    listing(rt, 0);
    listing(rt, 2048);
    // no keys
    one_bucket(rt, 7, 4, false, &[], &[0, 0]);
    three_words(rt, true);
    three_words(rt, false);
}
