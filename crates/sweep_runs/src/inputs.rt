// The numbers 8, 20 and 9 to 14.
ghost use Rattle.std.specs.Prelude.{◌≤◌};

use super::lending::{case, in_one, level};
use rules::How;

// Key 0 alone in one bucket, with these weights.
fn weighed(rt: &impl Print, weights: [i64; 7]) {
    case(
        rt,
        level(7, 4, 1),
        weights,
        in_one(true),
        &[0],
        &[0, 1],
        log_table::house(),
        2048,
        1,
        1,
        2883,
    );
}

// 8: both limits at the first and at the last weight, and one inside.
fn weights(rt: &impl Print) {
    weighed(rt, [4_294_967_296, 0, 0, 0, 0, 0, -4_294_967_296]);
    weighed(rt, [-4_294_967_296, 0, 0, 0, 0, 0, 4_294_967_296]);
    weighed(rt, [4_294_967_297, 0, 0, 0, 0, 0, 0]);
    weighed(rt, [-4_294_967_297, 0, 0, 0, 0, 0, 0]);
    weighed(rt, [0, 0, 0, 0, 0, 0, 4_294_967_297]);
    weighed(rt, [0, 0, 0, 0, 0, 0, -4_294_967_297]);
    weighed(rt, [0, 0, 0, -9_223_372_036_854_775_807, 0, 0, 0]);
}

// 20: no chunk, and as few and as many as there can be; 8 before it, and it before 9.
fn chunked(rt: &impl Print, chunks: u64, weight: i64, begins: &[u32]) {
    case(
        rt,
        level(7, 4, 1),
        [weight, 0, 0, 0, 0, 0, 0],
        How { bump: true, chunks },
        &[0],
        begins,
        log_table::house(),
        2048,
        1,
        1,
        2883,
    );
}

fn chunks(rt: &impl Print) {
    chunked(rt, 0, 0, &[0, 1]);
    chunked(rt, 1, 0, &[0, 1]);
    chunked(rt, 2, 0, &[0, 1]);
    chunked(rt, 0xffff_ffff_ffff_ffff, 0, &[0, 1]);
    chunked(rt, 0, 4_294_967_297, &[0, 1]);
    chunked(rt, 0, 0, &[0]);
    chunked(rt, 1, 0, &[0]);
}

// One bucket; all of work is lent.
fn one(rt: &impl Print, hashes: &[u64], begins: &[u32]) {
    case(
        rt,
        level(7, 4, 1),
        [0i64; 7],
        in_one(true),
        hashes,
        begins,
        log_table::house(),
        2048,
        1,
        1,
        15200,
    );
}

// Three buckets.
fn three(rt: &impl Print, hashes: &[u64], begins: &[u32]) {
    case(
        rt,
        level(7, 4, 3),
        [0i64; 7],
        in_one(true),
        hashes,
        begins,
        log_table::house(),
        2048,
        3,
        1,
        15200,
    );
}

// 9: begins of every wrong length, start, order and end; and an empty bucket between two.
fn begins(rt: &impl Print) {
    let keys = [0u64, 0x6000_0000_0000_0000, 0xb000_0000_0000_0000];
    three(rt, &keys, &[0, 1, 2, 3]);
    three(rt, &keys, &[0, 1, 2]);
    three(rt, &keys, &[0, 1, 2, 3, 3]);
    three(rt, &keys, &[]);
    three(rt, &keys, &[1, 1, 2, 3]);
    three(rt, &keys, &[0, 2, 1, 3]);
    three(rt, &keys, &[0, 1, 4, 3]);
    three(rt, &keys, &[0, 1, 2, 2]);
    three(rt, &keys, &[0, 1, 2, 4]);
    three(rt, &[0, 0xb000_0000_0000_0000], &[0, 1, 1, 2]);
    three(rt, &[], &[0, 0, 0, 0]);
}

// One bucket of n keys, all 0.
fn zeros(rt: &impl Print, n: usize, begins: &[u32])
    requires { n ≤ 4097 }
{
    let keys = [0u64; 4097];
    one(rt, &keys[..n], begins);
}

// 10, and before it 9. A bucket of 4,096 keys passes.
fn largest(rt: &impl Print) {
    zeros(rt, 4096, &[0, 4096]);
    zeros(rt, 4097, &[0, 4097]);
    zeros(rt, 4096, &[0, 4097]);
    // 10 before 11: bucket 1 has 4,097 keys of bucket 0
    three(rt, &[0u64; 4097], &[0, 0, 4097, 4097]);
}

// 11: the first and the last hash of each bucket, and each in its neighbour.
fn homes(rt: &impl Print) {
    three(rt, &[0, 0x5555_5555_5555_5555], &[0, 2, 2, 2]);
    three(
        rt,
        &[0x5555_5555_5555_5556, 0xaaaa_aaaa_aaaa_aaaa],
        &[0, 0, 2, 2],
    );
    three(
        rt,
        &[0xaaaa_aaaa_aaaa_aaab, 0xffff_ffff_ffff_ffff],
        &[0, 0, 0, 2],
    );
    three(rt, &[0x5555_5555_5555_5556], &[0, 1, 1, 1]);
    three(rt, &[0x5555_5555_5555_5555], &[0, 0, 1, 1]);
    three(rt, &[0xaaaa_aaaa_aaaa_aaab], &[0, 0, 1, 1]);
    three(rt, &[0xaaaa_aaaa_aaaa_aaaa], &[0, 0, 0, 1]);
    // not only the first key of a bucket
    three(rt, &[0, 1, 0x5555_5555_5555_5556], &[0, 3, 3, 3]);
}

// Key 0 alone with so many entries of this table.
fn priced(rt: &impl Print, table: [u32; 2048], entries: usize)
    requires { entries ≤ 2048 }
{
    case(
        rt,
        level(7, 4, 1),
        [0i64; 7],
        in_one(true),
        &[0],
        &[0, 1],
        table,
        entries,
        1,
        1,
        2883,
    );
}

// 12: 104 entries are needed. A table that falls just behind them or that does not rise passes.
fn tables(rt: &impl Print) {
    let mut table = log_table::house();
    priced(rt, table, 104);
    priced(rt, table, 103);
    priced(rt, table, 0);
    priced(rt, [5u32; 2048], 104);
    table[104] = 0;
    priced(rt, table, 2048);
    table[103] = 0;
    priced(rt, table, 2048);
    table[103] = 1_000_000_000;
    table[0] = 1;
    priced(rt, table, 2048);
}

// Two keys, with buffers of these lengths.
fn lent(rt: &impl Print, seeds: usize, bitmap: usize, work: usize)
    requires { (seeds ≤ 6) × ((bitmap ≤ 4) × (work ≤ 15200)) }
{
    case(
        rt,
        level(7, 4, 1),
        [0i64; 7],
        in_one(true),
        &[0, 0x4000_0000_0000_0003],
        &[0, 2],
        log_table::house(),
        2048,
        seeds,
        bitmap,
        work,
    );
}

// 13: W is 2,886.
fn lengths(rt: &impl Print) {
    lent(rt, 1, 1, 2886);
    lent(rt, 1, 1, 2885);
    lent(rt, 1, 1, 0);
    lent(rt, 0, 1, 2886);
    lent(rt, 2, 1, 2886);
    lent(rt, 1, 0, 2886);
    lent(rt, 1, 2, 2886);
}

// 14: the first bucket, in the order of weights, that gets 0; and the same with bumping allowed.
fn bumping(rt: &impl Print, bump: bool) {
    let house = log_table::house();
    // bucket 1 goes first and is placed; bucket 2 goes before bucket 0
    let keys = [
        1u64,
        1,
        0x6000_0000_0000_0000,
        0xb000_0000_0000_0000,
        0xb000_0000_0000_0000,
        0xb000_0000_0000_0001,
    ];
    case(
        rt,
        level(7, 4, 3),
        [9000, 0, 5000, 0, 0, 0, 0],
        in_one(bump),
        &keys,
        &[0, 2, 3, 6],
        house,
        2048,
        3,
        1,
        3000,
    );
    case(
        rt,
        level(7, 4, 3),
        [9000, 0, 0, 0, 0, 0, 0],
        in_one(bump),
        &keys,
        &[0, 2, 3, 6],
        house,
        2048,
        3,
        1,
        3000,
    );
    case(
        rt,
        level(7, 4, 1),
        [0i64; 7],
        in_one(bump),
        &[0, 0],
        &[0, 2],
        house,
        2048,
        1,
        1,
        2886,
    );
}

// Of two neighbours the first comes: 8 and 9, 11 and 12, 12 and 13, 13 and 14.
fn neighbours(rt: &impl Print) {
    let house = log_table::house();
    case(
        rt,
        level(7, 4, 1),
        [0, 4_294_967_297, 0, 0, 0, 0, 0],
        in_one(true),
        &[0],
        &[0],
        house,
        2048,
        1,
        1,
        2883,
    );
    case(
        rt,
        level(7, 4, 3),
        [0i64; 7],
        in_one(true),
        &[0],
        &[0, 0, 1, 1],
        house,
        101,
        3,
        1,
        2883,
    );
    case(
        rt,
        level(7, 4, 1),
        [0i64; 7],
        in_one(true),
        &[0],
        &[0, 1],
        house,
        103,
        1,
        1,
        2882,
    );
    case(
        rt,
        level(7, 4, 1),
        [0i64; 7],
        in_one(false),
        &[0, 0],
        &[0, 2],
        house,
        2048,
        1,
        1,
        2885,
    );
}

pub fn all(rt: &impl Print) {
    weights(rt);
    chunks(rt);
    begins(rt);
    largest(rt);
    homes(rt);
    tables(rt);
    lengths(rt);
    bumping(rt, true);
    bumping(rt, false);
    neighbours(rt);
}
