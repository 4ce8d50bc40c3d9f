// From entries to metadata: the row's bits as digits of ten bits, the full bit the highest of the first, and these digits cut into bytes.
ghost use Rattle.std.specs.Prelude.{◌≡◌, ◌≤◌, length};
ghost use Rattle.bits.specs.Bits.{list, bytes, Below};
ghost use Rattle.pointer_promises.specs.Pointer.{entry, renewed};
ghost use Rattle.pointer.specs.Steps.{Noted, Digits, digit_bit};

use crate::decode::{Row, entry_at};
use crate::{DIGITS, ENTRY_BITS, ROW_CELLS};
use words::byte;

// The active entries with their data bits.
pub fn kept(data: &[u8], row: &Row) -> [usize; DIGITS]
    ensures { Noted «data».now result (list row.now.active (entry row.now.metadata.now)) }
{
    let mut digits = [0usize; DIGITS];
    for e in 0..row.active {
        digits[e + 1] = renewed(data, entry_at(row.metadata, e));
    }
    digits
}

pub fn renewed(data: &[u8], e: usize) -> usize
    ensures { result ≡ renewed «data».now e }
{
    let p = e % ROW_CELLS;
    p + ROW_CELLS * ((byte(data, p / 8) >> (p % 8)) % 2)
}

// The full bit where all entries of the row become active, else their number a in unary in the last one.
pub fn counted(row: &Row, mut digits: [usize; DIGITS], a: usize) -> [usize; DIGITS]
    requires { a ≤ row.now.n }
    ensures { Digits row.now.n digits a result }
{
    if a == row.n {
        digits[0] = 512;
    } else {
        digits[row.n] = (1 << a) - 1;
    }
    digits
}

// A byte lies in two digits at most.
pub fn store(digits: &[usize; DIGITS], m: &mut [u8])
    requires { Below 1024 digits.now × (length m.old ≤ 13) }
    ensures { m.new ≡ bytes (length m.old) (digit_bit digits.now) }
{
    for (j, b) in m.iter_mut().enumerate() {
        let x = 8 * j + 9;
        let d = x / ENTRY_BITS;
        let v = digits[d] + 1024 * digits[d + 1];
        *b = ((v >> (x % ENTRY_BITS)) % 256) as u8;
    }
}
