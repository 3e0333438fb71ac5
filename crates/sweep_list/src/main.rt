// The sweep list program: reads standard input to its end and prints the listing.
#![tactic(auto)]

fn main() {
    let mut numbers = [0u64; 205];
    let mut buffer = io::large_buffer();
    let mut scan = list_input::start();
    // A proved loop has to end: no input takes this many reads.
    for _ in 0..u64::MAX {
        let n = io::read_full(0, &mut buffer);
        scan = list_input::feed(scan, &mut numbers, &buffer[..n]);
        // Less than the buffer holds: the input ended.
        if n < buffer.len() {
            break;
        }
    }
    let mut out = io::large_buffer();
    let end = listing::finish(scan, &numbers, &mut out);
    io::write_all(1, &out[..end]);
}
