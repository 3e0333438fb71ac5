// A whole level file, number by number, into lent seeds and holes.
ghost use Rattle.std.specs.Prelude.{◌≡◌, ◌≤◌, length};
ghost use Rattle.rules.specs.Good.{Good};
ghost use Rattle.level_file.specs.Reading.{numbers_at, holes_at, checked_at, head_at, hole_part, body_at, read_file, read_as, read_into, sized, Leaves};
ghost use Rattle.level_file.specs.Format.{not_below};
ghost use Rattle.level_file.specs.Answer.{counted, LeavesSeeds, LeavesHoles, said_read, read_answer, seeds_after, holes_after};

use crate::{Reader, VERSION};
use geometry::settings::check_settings;
use integers::power::power_of_two;
use rules::{Refusal, Settings};

// What was read of a file beside its seeds and holes: its settings, and how many holes it has.
#[derive(Clone, Copy)]
pub struct Level {
    pub settings: Settings,
    pub hole_count: u64,
}

// Reads as many seeds as there is room for. Refused: FileShort, and FileValue for a seed that is not below the limit.
pub fn read_seeds(reader: &mut Reader, limit: u64, seeds: &mut [u16]) -> Result<(), Refusal>
    requires { limit ≤ 65536 }
    ensures value { read_into result seeds.new reader.new.at ≡ numbers_at reader.old.bytes.now (not_below limit) (length seeds.old) reader.old.at }
    ensures same { reader.new.bytes.now ≡ reader.old.bytes.now }
{
    for seed in seeds.iter_mut() {
        let value = reader.next()?;
        if value >= limit {
            return Err(Refusal::FileValue);
        }
        *seed = value as u16;
    }
    Ok(())
}

// Reads as many holes below m as there is room for, the first as it is and each further one as its difference from the one before.
// Refused: FileShort, and FileValue for a hole that does not rise or is not below m.
pub fn read_holes(reader: &mut Reader, m: u64, holes: &mut [u32]) -> Result<(), Refusal>
    requires { m ≤ 134217728 }
    ensures value { read_into result holes.new reader.new.at ≡ holes_at reader.old.bytes.now m (length holes.old) 0 0 reader.old.at }
    ensures same { reader.new.bytes.now ≡ reader.old.bytes.now }
{
    let mut before = 0;
    let mut least = 0;
    for hole in holes.iter_mut() {
        let value = reader.next()?;
        if value < least || value >= m - before {
            return Err(Refusal::FileValue);
        }
        before += value;
        least = 1;
        *hole = before as u32;
    }
    Ok(())
}

// The settings. Refused: FileShort, and what `check_settings` refuses once all five are read.
pub fn read_settings(reader: &mut Reader) -> Result<Settings, Refusal>
    ensures value { read_as result reader.new.at ≡ checked_at reader.old.bytes.now reader.old.at }
    ensures same { reader.new.bytes.now ≡ reader.old.bytes.now }
{
    let settings = Settings {
        m: reader.next()?,
        log2_slice_len: reader.next()?,
        ll: reader.next()?,
        sb: reader.next()?,
        buckets: reader.next()?,
    };
    check_settings(settings)?;
    Ok(settings)
}

// The version and the settings, from the start of the file. Refused: FileShort, FileVersion for another version, and what
// `read_settings` refuses.
pub fn read_head(reader: &mut Reader) -> Result<Settings, Refusal>
    ensures value { reader.old.at ≡ 0 → read_as result reader.new.at ≡ head_at reader.old.bytes.now }
    ensures same { reader.new.bytes.now ≡ reader.old.bytes.now }
{
    let version = reader.next()?;
    if version != VERSION {
        return Err(Refusal::FileVersion);
    }
    read_settings(reader)
}

// The hole count and the holes, to the end of the file. Refused: FileShort; FileValue for a count above m; FileRoom where the holes
// have no room; what `read_holes` refuses; FileLeftOver where bytes are left over.
pub fn read_hole_part(reader: &mut Reader, m: u64, holes: &mut [u32]) -> Result<u64, Refusal>
    requires { m ≤ 134217728 }
    ensures value { read_as result reader.new.at ≡ sized (hole_part reader.old.bytes.now m (length holes.old) reader.old.at) }
    ensures buffer { Leaves (hole_part reader.old.bytes.now m (length holes.old) reader.old.at) holes.old holes.new }
{
    let count = reader.next()?;
    if count > m {
        return Err(Refusal::FileValue);
    }
    if count > holes.len() as u64 {
        return Err(Refusal::FileRoom);
    }
    read_holes(reader, m, &mut holes[..count as usize])?;
    if reader.at < reader.bytes.len() {
        return Err(Refusal::FileLeftOver);
    }
    Ok(count)
}

// The seeds and the holes of a file with these settings, and how many holes there are. Refused: FileRoom where the seeds have no
// room, and what the parts refuse.
pub fn read_body(
    reader: &mut Reader,
    settings: Settings,
    seeds: &mut [u16],
    holes: &mut [u32],
) -> Result<u64, Refusal>
    requires { Good settings }
    ensures value { read_as result reader.new.at ≡ counted (body_at reader.old.bytes.now (length seeds.old) (length holes.old) settings reader.old.at) }
    ensures first { LeavesSeeds (body_at reader.old.bytes.now (length seeds.old) (length holes.old) settings reader.old.at) seeds.old seeds.new }
    ensures second { LeavesHoles (body_at reader.old.bytes.now (length seeds.old) (length holes.old) settings reader.old.at) holes.old holes.new }
{
    let Settings { m, sb, buckets, .. } = settings;
    if buckets > seeds.len() as u64 {
        return Err(Refusal::FileRoom);
    }
    read_seeds(reader, power_of_two(sb), &mut seeds[..buckets as usize])?;
    read_hole_part(reader, m, holes)
}

// A whole file into lent seeds and holes, which a refusal leaves in any state.
pub fn read_lent(bytes: &[u8], seeds: &mut [u16], holes: &mut [u32]) -> Result<Level, Refusal>
    ensures value { said_read result ≡ read_answer (read_file bytes.now (length seeds.old) (length holes.old)) }
    ensures first { LeavesSeeds (read_file bytes.now (length seeds.old) (length holes.old)) seeds.old seeds.new }
    ensures second { LeavesHoles (read_file bytes.now (length seeds.old) (length holes.old)) holes.old holes.new }
{
    let mut reader = Reader { bytes, at: 0 };
    let settings = read_head(&mut reader)?;
    let hole_count = read_body(&mut reader, settings, seeds, holes)?;
    Ok(Level {
        settings,
        hole_count,
    })
}

// Reads a level file. Success keeps what lies beyond the seeds and the holes; any refusal leaves both zero.
pub fn read_file(bytes: &[u8], seeds: &mut [u16], holes: &mut [u32]) -> Result<Level, Refusal>
    ensures answer { said_read result ≡ read_answer (read_file bytes.now (length seeds.old) (length holes.old)) }
    ensures first { seeds.new ≡ seeds_after (read_file bytes.now (length seeds.old) (length holes.old)) seeds.old }
    ensures second { holes.new ≡ holes_after (read_file bytes.now (length seeds.old) (length holes.old)) holes.old }
{
    let read = read_lent(bytes, seeds, holes);
    if read.is_err() {
        seeds.fill(0);
        holes.fill(0);
    }
    read
}
