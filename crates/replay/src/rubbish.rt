// What lent buffers hold before a sweep, and what they must hold after it.

// A word for each place.
fn word(i: usize) -> u64 {
    (i as u64).wrapping_mul(0x9E37_79B9_7F4A_7C15) ^ 0x5555_5555_5555_5555
}

pub fn in_words(xs: &mut [u64]) {
    for (i, x) in xs.iter_mut().enumerate() {
        *x = word(i);
    }
}

pub fn in_seeds(xs: &mut [u16]) {
    for (i, x) in xs.iter_mut().enumerate() {
        *x = (word(i) % 65536) as u16;
    }
}

// How many of the words below `used` are not zero, or from there on are not as they were.
pub fn worked(xs: &[u64], used: u64) -> u64 {
    let wrong = |(i, x): &(usize, &u64)| {
        let left = if (*i as u64) < used { 0 } else { word(*i) };
        **x != left
    };
    xs.iter().enumerate().filter(wrong).count() as u64
}

// How many numbers are not zero.
pub fn nonzero<T: Copy + Drop + PartialEq + Default>(xs: &[T]) -> u64 {
    xs.iter().filter(|x| **x != T::default()).count() as u64
}
