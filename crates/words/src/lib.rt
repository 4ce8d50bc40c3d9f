// Small functions on words, on bytes that make words, and on the bytes of a word. Each public one answers for every argument.
#![tactic(auto)]

mod set_bits;
mod stores;

ghost use Rattle.std.specs.Prelude.{◌≡◌, true, cond, ◌+◌, ◌*◌, ◌^◌, ◌≤◌, ◌<◌, min, eqb, length, get_or, take, drop};
ghost use Rattle.bits.specs.Bits.{word, number, number_at};

pub use set_bits::ones;
pub use stores::store;

// The bits of a word.
pub const BITS: usize = 64;

// The smaller of two: `min` by the name that docs/PROMISES.md lists.
pub fn least(a: usize, b: usize) -> usize
    ensures { result ≡ min a b }
{
    a.min(b)
}

// The word whose n lowest bits are 1: all of them from 64 on.
pub fn low_bits(n: usize) -> u64
    ensures { result ≡ word (min n 64) (λ _. true) }
{
    if n < BITS {
        (1 << n) - 1
    } else {
        0xffff_ffff_ffff_ffff
    }
}

// Copies the words into as many. Not by `copy_from_slice`: the archive would need `memmove`, and is to need `memcpy` and `memset` alone.
fn copy_all(from: &[u64], into: &mut [u64])
    requires { length into.old ≡ length from.now }
    ensures { into.new ≡ from.now }
{
    for (i, word) in into.iter_mut().enumerate() {
        *word = from[i];
    }
}

// Copies the words into as many, and does nothing where there are more or fewer.
pub fn copy(from: &[u64], into: &mut [u64])
    ensures { into.new ≡ cond (eqb (length into.old) (length from.now)) from.now into.old }
{
    if into.len() == from.len() {
        copy_all(from, into);
    }
}

// The same of bytes. Two functions each, since one of any element would be asked how long an element is.
fn copy_all_bytes(from: &[u8], into: &mut [u8])
    requires { length into.old ≡ length from.now }
    ensures { into.new ≡ from.now }
{
    for (i, byte) in into.iter_mut().enumerate() {
        *byte = from[i];
    }
}

pub fn copy_bytes(from: &[u8], into: &mut [u8])
    ensures { into.new ≡ cond (eqb (length into.old) (length from.now)) from.now into.old }
{
    if from.len() == into.len() {
        copy_all_bytes(from, into);
    }
}

// The byte at `at` as a number, and 0 past the end.
pub fn byte(bytes: &[u8], at: usize) -> usize
    ensures { (result ≡ get_or bytes.now at 0) × (result < 256) }
{
    bytes.get(at).map_or(0, |byte| usize::from(*byte))
}

// A byte, moved up.
fn lift(x: u8, up: usize) -> u64
    requires { up ≤ 56 }
    ensures { result ≡ x * 2 ^ up }
{
    u64::from(x) << up
}

// The `n` bytes from byte `at` on as a number, the first the lowest. By hand: `from_le_bytes` is of eight bytes that are all there,
// and fewer would first be copied.
fn join(bytes: &[u8], at: usize, n: usize) -> u64
    requires { (n ≤ 8) × (at + n ≤ length bytes.now) }
    ensures { result ≡ number 256 (take n (drop at bytes.now)) }
{
    let mut v = 0u64;
    for j in 0..n {
        v = lift(bytes[at + j], 8 * j) | v;
    }
    v
}

// The number of the `n` bytes from byte `at` on, of at most eight of them, the first the lowest; a byte past the end adds nothing.
pub fn number_at(bytes: &[u8], at: usize, n: usize) -> u64
    ensures { result ≡ number_at bytes.now at (min n 8) }
{
    if bytes.len() <= at {
        return 0;
    }
    let left = bytes.len() - at;
    let most = least(n, 8);
    if left < most {
        join(bytes, at, left)
    } else {
        join(bytes, at, most)
    }
}

// The word of the eight bytes from byte `at` on. The compiler makes one load of them where all are there.
pub fn load(bytes: &[u8], at: usize) -> u64
    ensures { result ≡ number_at bytes.now at 8 }
{
    number_at(bytes, at, 8)
}
