#![tactic(auto)]

ghost use Rattle.std.specs.Prelude.{◌≡◌, List, ℕ, ◌+◌, ◌≤◌, ◌<◌, ◌^◌, min};
ghost use Rattle.rules.specs.Order.{Input};
ghost use Rattle.window.specs.Large.{tell};
ghost use Rattle.window.specs.Changes.{Enterable, Entered, Poppable, Popping};
ghost use Rattle.window.specs.Window.{blank, empty, state_of, Ranged, Window as Standing, Windowed, Full, Turned, Entering, Waiting, Filled};

pub mod buckets;
pub mod cyclic;
pub mod large;
pub mod queues;
pub mod rule;

use self::queues::Queues;

// Whose turn it is: the window moves over the buckets of a range, and each turn takes the one that rule W names.

// The buckets that have entered and are not taken: those below 64 keys in queues, all of them in the cyclic set, and of
// those of 64 keys and more the one that goes first. They lie from `oldest` on; `next` is the bucket to enter.
#[derive(Drop)]
pub struct Window {
    pub queues: Queues,
    pub set: [u64; 16],
    pub large: Option<usize>,
    pub oldest: usize,
    pub next: usize,
}

// The bucket of the greatest key is taken out: `large`, or the first one of a queue.
fn pop(
    queues: &mut Queues,
    begins: &[u32],
    table: &[i64; 64],
    large: Option<usize>,
    oldest: usize,
) -> usize
    requires { Poppable table.now queues.old begins.now (tell large) oldest }
    ensures { Popping table.now queues.old begins.now (tell large) oldest result queues.new }
{
    let Some(b) = large else {
        let size = queues.top();
        return queues.shift(table, oldest, size);
    };
    if queues.is_empty() {
        return b;
    }
    let size = queues.top();
    if queues.key(size) < large::key_of(begins, table, b) {
        return b;
    }
    queues.shift(table, oldest, size)
}

impl Window {
    // A window with no bucket, which begins at bucket `lo`.
    pub fn new(lo: usize) -> Window
        ensures { state_of result ≡ blank lo }
    {
        Window {
            queues: Queues::blank(),
            set: [0; 16],
            large: None,
            oldest: lo,
            next: lo,
        }
    }

    // No bucket of the window is below this one.
    pub fn oldest(&self) -> usize
        ensures { result ≡ (state_of self.now).oldest }
    {
        self.oldest
    }

    // Whether the window has no bucket.
    pub fn is_empty(&self) -> bool
        ensures value { result ≡ empty (state_of self.now) }
        ensures nonempty_bound { (state_of self.now).queues.nonempty < 2 ^ 64 }
    {
        self.queues.is_empty() && self.large.is_none()
    }

    // Bucket `b`, of `size` keys, enters: the queue of its size; from 64 keys on it is only marked, and may now go first
    // among those. An empty bucket stays out.
    fn enter(&mut self, begins: &[u32], table: &[i64; 64], b: usize, size: usize)
        requires { Enterable table.now self.old.queues self.old.set begins.now (tell self.old.large) b size }
        ensures entered { Entered table.now
            self.old.queues self.old.set begins.now (tell self.old.large) b size
            self.new.queues self.new.set (tell self.new.large) }
        ensures kept { (self.new.oldest ≡ self.old.oldest) × (self.new.next ≡ self.old.next) }
    {
        if size == 0 {
            return;
        }
        words::set_bit(&mut self.set, b % 1024);
        if size < 64 {
            self.queues.push(table, b, size);
        } else {
            self.large = Some(large::first_of(begins, table, self.large, b));
        }
    }

    // The buckets from `next` on enter, up to 256 from the oldest one and below `hi`.
    fn fill(&mut self, begins: &[u32], table: &[i64; 64], hi: usize)
        requires { Entering begins.now table.now hi (state_of self.old) }
        ensures oldest_value { (self.new.oldest ≡ self.old.oldest) × (self.new.next ≡ min (self.old.oldest + 256) hi) }
        ensures window { (i : Input) (lo k : ℕ) (rest : List ℕ)
            → Ranged i begins.now table.now hi
            → Standing i lo hi k (state_of self.old) rest
            → Standing i lo hi k (state_of self.new) rest }
        ensures heads { self.new.queues.heads ≡ self.old.queues.heads }
    {
        let to = usize::min(self.oldest + 256, hi);
        for b in self.next..to {
            let size = groups::size_of(begins, b);
            self.enter(begins, table, b, size);
        }
        self.next = to;
    }

    // The window reaches 256 buckets from its oldest one; an empty window moves to the next bucket with keys.
    pub fn refill(&mut self, begins: &[u32], table: &[i64; 64], hi: usize)
        requires { Waiting begins.now table.now hi (state_of self.old) }
        ensures full { (i : Input) (lo k : ℕ)
            → Ranged i begins.now table.now hi
            → Windowed i lo hi k (state_of self.old)
            → Full i lo hi k (state_of self.new) }
        ensures heads { self.new.queues.heads ≡ self.old.queues.heads }
    {
        if self.is_empty() {
            self.next = buckets::skip(begins, self.next, hi);
            self.oldest = self.next;
        }
        self.fill(begins, table, hi);
    }

    // The bucket that rule W names is taken.
    pub fn take(&mut self, begins: &[u32], table: &[i64; 64]) -> usize
        requires filled { Filled begins.now table.now (state_of self.old) }
        requires large_nonzero { (state_of self.old).queues.nonempty ≡ 0 → 0 < (state_of self.old).large }
        ensures turned { (i : Input) (lo hi k : ℕ)
            → Ranged i begins.now table.now hi
            → Full i lo hi k (state_of self.old)
            → Turned i lo hi k result (state_of self.new) }
        ensures oldest_le_bucket { ((state_of self.old).oldest ≤ result) × (result < (state_of self.old).oldest + 256) }
        ensures rows { self.new.queues.rows ≡ self.old.queues.rows }
    {
        let b = pop(&mut self.queues, begins, table, self.large, self.oldest);
        words::clear_bit(&mut self.set, b % 1024);
        if b == self.oldest {
            self.oldest = cyclic::first_in(&self.set, self.oldest + 1, self.next);
        }
        self.large = large::left(
            &self.set,
            begins,
            table,
            self.large,
            b,
            self.oldest,
            self.next,
        );
        b
    }
}
