// What the programs share that compare our answers with the Rust's: numbers read from standard input, and a tally.
#![tactic(auto)]

ghost use Rattle.std.specs.Prelude.{◌≡◌};
ghost use Rattle.comparing.specs.Tallied.{tallied};

// The next decimal digit of standard input; none for any other byte and at the end.
fn digit() -> Option<u64> {
    let mut byte = [0u8; 1];
    io::read_full(0, &mut byte);
    match byte[0] {
        b @ b'0'..=b'9' => Some(u64::from(b - b'0')),
        _ => None,
    }
}

// The next number of standard input: digits up to a byte that is none, modulo 2^64. Past the end it is 0.
pub fn number() -> u64 {
    let mut n: u64 = 0;
    for _ in 0..21 {
        let Some(d) = digit() else {
            return n;
        };
        n = n.wrapping_mul(10).wrapping_add(d);
    }
    n
}

// How many numbers were compared, and how many of them differ.
#[derive(Clone, Copy)]
pub struct Tally {
    pub compared: u64,
    pub differ: u64,
}

// A comparison under way: where it tells of differences, the case that it is at, and the tally.
pub struct Comparison<'a, R: Print> {
    rt: &'a R,
    pub case: u64,
    pub tally: Tally,
}

impl<'a, R: Print> Comparison<'a, R> {
    pub fn new(rt: &'a R) -> Comparison<'a, R>
        ensures { (result.case ≡ 0) × (result.tally ≡ record { compared = 0; differ = 0 }) }
    {
        let tally = Tally {
            compared: 0,
            differ: 0,
        };
        Comparison { rt, case: 0, tally }
    }

    // Compares our number with the Rust's, and says so of the first ten that differ. The name is what is printed of it, whatever its bytes.
    #[tactic(auto, unfolding(crate::specs::Tallied::tallied))]
    pub fn held(&mut self, name: &[u8], here: u64, rust: u64)
        ensures counted { self.new.tally ≡ tallied self.old.tally here rust }
        ensures kept { self.new.case ≡ self.old.case }
    {
        let t = self.tally;
        let compared = t.compared.wrapping_add(1);
        if here == rust {
            self.tally = Tally { compared, ..t };
            return;
        }
        if t.differ < 10 {
            let case = self.case;
            let _ = print!(self.rt; "case {case}, ");
            let _ = self.rt.write_all(name);
            let _ = println!(self.rt; ": here {here}, the Rust {rust}");
        }
        self.tally = Tally {
            compared,
            differ: t.differ.wrapping_add(1),
        };
    }

    // Ends with the last line, which no program can leave out, since nothing else lets a comparison go.
    pub fn close(self) {
        let Comparison { rt, case: _, tally } = self;
        let Tally { compared, differ } = tally;
        let _ = println!(rt; "{compared} compared, {differ} differ");
    }
}
