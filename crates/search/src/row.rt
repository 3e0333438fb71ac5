// A bucket's `size` ring keys in one layout, which are work[a..a + size]; `start` is its first slice.
#[derive(Clone, Copy)]
pub struct Row {
    pub a: usize,
    pub size: usize,
    pub start: usize,
}
