// The sweep list program's library: from the bytes read to the bytes printed.
#![tactic(auto)]

ghost use Rattle.std.specs.Prelude.{◌≡◌, true, ◌+◌, ◌≤◌, length};
ghost use Rattle.rules.specs.Numbers.{rising};
ghost use Rattle.listing.specs.Work.{WorkTest};
ghost use Rattle.listing.specs.Fed.{Fed, Finished, Listing};

mod printing;

use crate::printing::asked;
use checks::largest_size;
use geometry::settings::check_settings;
use geometry::shape::Geometry;
use list_input::{Scan, feed, scan_ends, start};
use list_output::refused_text;
use rules::{Refusal, Settings};

// The W test of 19: the work words needed are over 8,192. Settings that one of 1 to 7 refuses skip it.
pub fn over_work(settings: Settings, begins: &[u32]) -> bool
    requires buckets_in_bounds { settings.buckets + 1 ≤ length begins.now }
    requires buckets_value { rising begins.now settings.buckets ≡ true }
    ensures { WorkTest settings begins.now result }
{
    if check_settings(settings).is_err() {
        return false;
    }
    let z = largest_size(begins, settings.buckets as usize) as u64;
    z > 4096 || Geometry::new(settings).work_words(z) > 8192
}

// What is printed at the end of the input: the scan and the numbers kept say it all. Answers how many bytes it wrote.
pub fn finish(scan: Scan, numbers: &[u64], out: &mut [u8]) -> usize
    requires fed { Fed scan numbers.now }
    requires in_bounds { 32768 ≤ length out.old }
    ensures finished { Finished scan numbers.now out.old out.new result }
    ensures upper_bound { result ≤ 32768 }
{
    let count = scan.count;
    if !scan_ends(scan) {
        return refused_text(Refusal::Form.into(), out);
    }
    if count > 205 {
        return refused_text(Refusal::TooLarge.into(), out);
    }
    asked(&numbers[..count], out)
}

// The listing of an input that is at hand as a whole, at the front of a buffer of at least 32,768 bytes. Answers how many bytes it
// wrote: 0 where the buffer is shorter, since the call cannot fail.
pub fn listing(bytes: &[u8], out: &mut [u8]) -> usize
    ensures { Listing bytes.now out.old out.new result }
{
    if out.len() < 32768 {
        return 0;
    }
    let mut numbers = [0u64; 205];
    let scan = feed(start(), &mut numbers, bytes);
    finish(scan, &numbers, out)
}
