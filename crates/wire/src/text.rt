// Text, put into a buffer from a place on, as much of it as there is room for. Each function answers where its text ends.
// Text is put by hand, and takes the buffer and a place: `Put` says what becomes of the whole room, and a `write!` says nothing of one that is full.
ghost use Rattle.std.specs.Prelude.{◌≡◌, [], ◌∷◌, ◌++◌, ◌<◌, min, length, take, drop};
ghost use Rattle.wire.specs.Text.{hex_digit_ascii, hex_of, decimal, Put};

// The ASCII code of a digit.
fn digit(d: u64) -> u8
    requires { d < 16 }
    ensures { result ≡ hex_digit_ascii d }
{
    if d < 10 { 48 + d as u8 } else { 87 + d as u8 }
}

// Fills a text with the last digits of x to the base 16, the highest first.
// It counts places, since of what is written through `iter_mut().rev()` nothing is known.
fn hex(text: &mut [u8], x: u64)
    ensures { text.new ≡ hex_of (length text.old) x }
{
    let mut rest = x;
    for i in (0..text.len()).rev() {
        text[i] = digit(rest % 16);
        rest /= 16;
    }
}

// Copies bytes to the front, as many as there is room for, and answers how many.
pub fn copy(from: &[u8], into: &mut [u8]) -> usize
    ensures end { result ≡ min (length from.now) (length into.old) }
    ensures holds { into.new ≡ take (min (length from.now) (length into.old)) from.now ++ drop (min (length from.now) (length into.old)) into.old }
{
    let n = from.len().min(into.len());
    into[..n].copy_from_slice(&from[..n]);
    n
}

// Bytes as they are.
pub fn put(out: &mut [u8], at: usize, text: &[u8]) -> usize
    ensures { Put text.now out.old at out.new result }
{
    if out.len() <= at {
        return at;
    }
    let n = (out.len() - at).min(text.len());
    at + copy(&text[..n], &mut out[at..])
}

// A number in decimal.
pub fn put_decimal(out: &mut [u8], at: usize, x: u64) -> usize
    ensures { Put (decimal x) out.old at out.new result }
{
    if x < 10 {
        return put(out, at, &[digit(x)]);
    }
    let end = put_decimal(out, at, x / 10);
    put(out, end, &[digit(x % 10)])
}

// The last n digits of a number to the base 16, of which it has sixteen.
pub fn put_hex(out: &mut [u8], at: usize, n: usize, x: u64) -> usize
    ensures { Put (hex_of (min n 16) x) out.old at out.new result }
{
    let mut digits = [0u8; 16];
    let k = n.min(16);
    hex(&mut digits[..k], x);
    put(out, at, &digits[..k])
}
