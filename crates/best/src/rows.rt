// Where a bucket's ring keys and free words lie in work.
ghost use Rattle.std.specs.Prelude.{◌≡◌, ◌+◌, ◌*◌, ◌^◌, ◌<◌};

// Layout r has the `size` keys at work[at + r size..] and the `count` free words at work[to + r count..].
#[derive(Clone, Copy)]
pub struct Rows {
    pub at: usize,
    pub size: usize,
    pub to: usize,
    pub count: usize,
    pub layouts: usize,
}

impl Rows {
    // Where layout r's keys begin.
    pub fn keys(self, r: usize) -> usize
        requires { self.at + r * self.size < 2 ^ 64 }
        ensures { result ≡ self.at + r * self.size }
    {
        self.at + r * self.size
    }

    // Where its free words begin.
    pub fn free(self, r: usize) -> usize
        requires { self.to + r * self.count < 2 ^ 64 }
        ensures { result ≡ self.to + r * self.count }
    {
        self.to + r * self.count
    }

    // Where the free words of the last layout end.
    pub fn end(self) -> usize
        requires { self.to + self.layouts * self.count < 2 ^ 64 }
        ensures { result ≡ self.to + self.layouts * self.count }
    {
        self.to + self.layouts * self.count
    }
}
