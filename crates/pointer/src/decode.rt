// From metadata to entries: what the entries hold, which are active, and what is wrong with them.
ghost use Rattle.std.specs.Prelude.{◌≡◌, ◌≤◌, length, IfOk};
ghost use Rattle.bits.specs.Bits.{list};
ghost use Rattle.refusals.specs.Numbers.{number_of};
ghost use Rattle.pointer_promises.specs.Pointer.{entry, active, or_else, measured, verdict};
ghost use Rattle.pointer.specs.Steps.{Counted, Found, Served, arranged, shared};

use crate::octets::shown;
use crate::{ENTRIES, ENTRY_BITS, ROW_BYTES, ROW_CELLS};
use refusals::Refusal;
use words::byte;

// The metadata of a row of n entries, and how many of them are active.
#[derive(Drop)]
pub struct Row<'a> {
    pub n: usize,
    pub metadata: &'a [u8],
    pub active: usize,
    ghost counted: { Counted n metadata.now active },
}

// What a call finds in its metadata, where `fixed` says that its other buffers have their lengths: the row, and the positions that its active entries name.
// `fixed` is a test, since `measured` of the definitions is handed one.
pub fn found<'a>(
    n: usize,
    fixed: bool,
    metadata: &'a [u8],
) -> Result<(Row<'a>, [u8; ROW_BYTES]), Refusal>
    ensures number { number_of result ≡ or_else (measured n fixed (length metadata.now)) (verdict n metadata.now) }
    ensures found { IfOk result (λ f. Found n fixed metadata.now f.0.n f.0.metadata.now f.1) }
{
    measured(n, fixed, metadata.len())?;
    let row = Row {
        n,
        metadata,
        active: count(n, metadata),
    };
    row.arranged()?;
    let served = row.served()?;
    Ok((row, served))
}

// The number of entries is judged before the metadata's length is computed from it. `fixed` is a test, as in the definition.
fn measured(n: usize, fixed: bool, metadata: usize) -> Result<(), Refusal>
    ensures { number_of result ≡ measured n fixed metadata }
{
    if !(1..=ENTRIES).contains(&n) {
        return Err(Refusal::OutOfRange);
    }
    if fixed & (metadata == (1 + ENTRY_BITS * n + 7) / 8) {
        Ok(())
    } else {
        Err(Refusal::WrongLength)
    }
}

// An entry has ten bits, which lie in three bytes at most.
pub fn entry_at(m: &[u8], e: usize) -> usize
    requires { e ≤ 10 }
    ensures { result ≡ entry m.now e }
{
    let p = 1 + ENTRY_BITS * e;
    let q = p / 8;
    let v = byte(m, q) + 256 * byte(m, q + 1) + 65536 * byte(m, q + 2);
    (v >> (p % 8)) % 1024
}

// How many entries are active.
fn count(n: usize, m: &[u8]) -> usize
    requires { (1 ≤ n) × (n ≤ 10) }
    ensures { (result ≡ active n m.now) × (result ≤ n) }
{
    if byte(m, 0) % 2 == 1 {
        return n;
    }
    (entry_at(m, n - 1) % (1 << (n - 1))).count_ones() as usize
}

impl<'a> Row<'a> {
    // What is wrong with the entries: the spare bits are read as if they were one more. From the last down to the first that is not active,
    // the last is to hold the count and the others nothing.
    fn arranged(&self) -> Result<(), Refusal>
        ensures { number_of result ≡ arranged self.now.n self.now.metadata.now }
    {
        if entry_at(self.metadata, self.n) != 0 {
            return Err(Refusal::BitPastEnd);
        }
        let mut idle = (1 << self.active) - 1;
        for e in (self.active..self.n).rev() {
            if entry_at(self.metadata, e) != idle {
                return Err(Refusal::Malformed);
            }
            idle = 0;
        }
        Ok(())
    }

    // The positions that the active entries name, where none is named twice.
    fn served(&self) -> Result<[u8; ROW_BYTES], Refusal>
        ensures number { number_of result ≡ shared self.now.n self.now.metadata.now }
        ensures served { IfOk result (λ served. Served self.now.n self.now.metadata.now served) }
    {
        let mut served = [0u8; ROW_BYTES];
        for i in 0..self.active {
            let p = entry_at(self.metadata, i) % ROW_CELLS;
            let q = p / 8;
            let b = served[q];
            let c = shown(b, p + ROW_CELLS); // as by an entry that shows a 1 there
            if b == c {
                return Err(Refusal::SamePointer);
            }
            served[q] = c;
        }
        Ok(served)
    }
}
