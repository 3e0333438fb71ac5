// A line: a word and numbers in decimal, each after a space, and a newline. A number has at most twenty digits.
ghost use Rattle.std.specs.Prelude.{◌≡◌, ◌∷◌, ◌+◌, ◌*◌, ◌≤◌, length};
ghost use Rattle.std.proofs.lemmas.List.Edits.{sets};
ghost use Rattle.list_output.specs.Text.{decimal, fields, line};

// Copies bytes to a place.
fn put(out: &mut [u8], at: usize, text: &[u8]) -> usize
    requires { at + length text.now ≤ length out.old }
    ensures value { result ≡ at + length text.now }
    ensures out_after { out.new ≡ sets out.old at text.now }
{
    let end = at + text.len();
    out[at..end].copy_from_slice(text);
    end
}

// A space and a number.
fn put_number(out: &mut [u8], at: usize, n: u64) -> usize
    requires { at + 21 ≤ length out.old }
    ensures value { (result ≡ at + length (32 ∷ decimal n)) × (result ≤ at + 21) }
    ensures out_after { out.new ≡ sets out.old at (32 ∷ decimal n) }
{
    let mut digits = [0u8; 20];
    let k = io::decimal(n, &mut digits);
    out[at] = b' ';
    put(out, at + 1, &digits[..k])
}

// Each number after a space.
fn put_fields(out: &mut [u8], at: usize, numbers: &[u64]) -> usize
    requires { at + 21 * length numbers.now ≤ length out.old }
    ensures value { (result ≡ at + length (fields numbers.now)) × (result ≤ at + 21 * length numbers.now) }
    ensures out_after { out.new ≡ sets out.old at (fields numbers.now) }
{
    let mut place = at;
    for &number in numbers {
        place = put_number(out, place, number);
    }
    place
}

// A whole line.
pub fn put_line(out: &mut [u8], at: usize, word: &[u8], numbers: &[u64]) -> usize
    requires { at + (length word.now + 21 * length numbers.now + 1) ≤ length out.old }
    ensures value { (result ≡ at + length (line word.now numbers.now)) × (result ≤ at + (length word.now + 21 * length numbers.now + 1)) }
    ensures out_after { out.new ≡ sets out.old at (line word.now numbers.now) }
{
    let after_word = put(out, at, word);
    let end = put_fields(out, after_word, numbers);
    out[end] = b'\n';
    end + 1
}
