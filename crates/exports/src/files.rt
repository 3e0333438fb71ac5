// Level files.
ghost use Rattle.std.specs.Prelude.{◌≡◌, length, replicate};
ghost use Rattle.level_file.specs.Format.{level_of};
ghost use Rattle.level_file.specs.Reading.{read_file};
ghost use Rattle.level_file.specs.Answer.{read_answer, seeds_after, holes_after};
ghost use Rattle.level_file.specs.Writing.{write_answer, bytes_after};
ghost use Rattle.exports.specs.Level.{settings_of};
ghost use Rattle.exports.specs.Told.{number_told, values_told, value_told};

use crate::level::settings_of;
use crate::telling::tell;
use level_file::{Level, read_file, write_file};

// Writes a level file. 0: written has its length; else all bytes of out and written are 0.
pub fn phastr_level_write(
    m: u64,
    log2_slice_len: u64,
    ll: u64,
    sb: u64,
    buckets: u64,
    seeds: &[u16],
    holes: &[u32],
    out: &mut [u8],
    written: &mut u64,
) -> u64
    ensures answer { result ≡ number_told (write_answer (level_of (settings_of m log2_slice_len ll sb buckets) seeds.now holes.now) (length out.old)) }
    ensures file { out.new ≡ bytes_after (level_of (settings_of m log2_slice_len ll sb buckets) seeds.now holes.now) out.old }
    ensures long { written.new ≡ value_told (write_answer (level_of (settings_of m log2_slice_len ll sb buckets) seeds.now holes.now) (length out.old)) 0 }
{
    *written = 0;
    let s = settings_of(m, log2_slice_len, ll, sb, buckets);
    let done = write_file(s, seeds, holes, out);
    tell(done, written)
}

// Reads a level file. 0: level has m, log2_slice_len, ll, sb, B and the hole count; else it, all seeds and all holes are 0.
pub fn phastr_level_read(
    bytes: &[u8],
    seeds: &mut [u16],
    holes: &mut [u32],
    level: &mut [u64; 6],
) -> u64
    ensures answer { result ≡ number_told (read_answer (read_file bytes.now (length seeds.old) (length holes.old))) }
    ensures given { seeds.new ≡ seeds_after (read_file bytes.now (length seeds.old) (length holes.old)) seeds.old }
    ensures listed { holes.new ≡ holes_after (read_file bytes.now (length seeds.old) (length holes.old)) holes.old }
    ensures told { level.new ≡ values_told (read_answer (read_file bytes.now (length seeds.old) (length holes.old))) (replicate 6 0) }
{
    match read_file(bytes, seeds, holes) {
        Ok(
            Level {
                settings: s,
                hole_count,
            },
        ) => {
            *level = [s.m, s.log2_slice_len, s.ll, s.sb, s.buckets, hole_count];
            0
        }
        Err(why) => {
            *level = [0; 6];
            why.number()
        }
    }
}
