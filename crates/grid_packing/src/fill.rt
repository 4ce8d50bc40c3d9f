// The bytes of counters whose planes are given: their bits are made as many at once as a word holds, and stored.
ghost use Rattle.std.specs.Prelude.{◌≡◌, ℕ, ◌+◌, ◌*◌, ◌≤◌};
ghost use Rattle.bits.specs.Bits.{word};
ghost use Rattle.rdis.specs.Packing.{width as width_of};
ghost use Rattle.grid_sets.specs.Planes.{AreThrees};
ghost use Rattle.grid_packing.specs.Promises.{bit_of, FillsPlanes};
ghost use Rattle.grid_packing.specs.Steps.{StoresAt};

use crate::apart::{apart, apart_by_three};
use crate::narrow::Narrow;
use words::store;

// ---- counters side by side

// The 32 counters from counter `at` on, of two bits.
fn pairs<C: Narrow>(counters: C, at: usize) -> u64
    requires { at ≤ 32 }
    ensures { (f : ℕ → ℕ) → AreThrees 64 f (C.planes_of counters) → result ≡ word 64 (λ i. bit_of 2 f (2 * at + i)) }
{
    let p = counters.planes();
    (apart(p.planes.high >> at) << 1) | apart(p.planes.low >> at)
}

// The 16 counters from counter `at` on, of three bits.
fn triples<C: Narrow>(counters: C, at: usize) -> u64
    requires { at ≤ 48 }
    ensures { (f : ℕ → ℕ) → AreThrees 64 f (C.planes_of counters) → result ≡ word 48 (λ i. bit_of 3 f (3 * at + i)) }
{
    let p = counters.planes();
    (apart_by_three(p.top >> at) << 2)
        | ((apart_by_three(p.planes.high >> at) << 1) | apart_by_three(p.planes.low >> at))
}

// ---- stored: each width in its own way, since 64 counters are one word, two words, or three words of four parts

// Stores 64 of three bits from byte `q` on, as far as there are bytes. 16 counters are three quarters of a word.
fn store_by_three<C: Narrow>(out: &mut [u8], q: usize, counters: C)
    requires { q ≤ 24 }
    ensures { StoresAt 3 q (C.planes_of counters) out.old out.new }
{
    let a = triples(counters, 0);
    let b = triples(counters, 16);
    let c = triples(counters, 32);
    let d = triples(counters, 48);
    store(out, q, (b << 48) | a);
    store(out, q + 8, (c << 32) | (b >> 16));
    store(out, q + 16, (d << 16) | (c >> 32));
}

// Stores 128 of three bits. The second 64 come after the first.
fn fill_by_three<C: Narrow>(out: &mut [u8], first: C, second: C)
    ensures { FillsPlanes 3 (C.planes_of first) (C.planes_of second) out.old out.new }
{
    store_by_three(out, 0, first);
    if out.len() <= 24 {
        return;
    }
    store_by_three(out, 24, second);
}

// Stores 128 of two bits.
fn fill_by_two<C: Narrow>(out: &mut [u8], first: C, second: C)
    ensures { FillsPlanes 2 (C.planes_of first) (C.planes_of second) out.old out.new }
{
    store(out, 0, pairs(first, 0));
    store(out, 8, pairs(first, 32));
    if out.len() <= 16 {
        return;
    }
    store(out, 16, pairs(second, 0));
    store(out, 24, pairs(second, 32));
}

// Stores 128 of one bit, which are their lowest planes.
fn fill_by_one<C: Narrow>(out: &mut [u8], first: C, second: C)
    ensures { FillsPlanes 1 (C.planes_of first) (C.planes_of second) out.old out.new }
{
    store(out, 0, first.planes().planes.low);
    store(out, 8, second.planes().planes.low);
}

// Stores 128 at K, as far as there are bytes. Inlined, since a call would pass three planes through memory.
#[inline(always)]
pub fn fill<C: Narrow>(out: &mut [u8], k: usize, first: C, second: C)
    ensures { FillsPlanes (width_of k) (C.planes_of first) (C.planes_of second) out.old out.new }
{
    match grid_sizes::width(k) {
        1 => fill_by_one(out, first, second),
        2 => fill_by_two(out, first, second),
        _ => fill_by_three(out, first, second),
    }
}
