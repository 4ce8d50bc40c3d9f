// The sets of lines of counters whose planes are given, 64 lines at once.
ghost use Rattle.std.specs.Prelude.{◌≡◌, Bool, ℕ, ◌+◌, ◌≤◌, ◌<◌};
ghost use Rattle.bits.specs.Bits.{word};
ghost use Rattle.grid_sets.specs.Sets.{sets_of};
ghost use Rattle.grid_sets.specs.Planes.{AreThrees};

use grid_packing::Narrow;
use grid_sets::{LEVELS, Planes, Threes};

// The rows or the columns of a block: how many counters come before theirs, and how many they are.
#[derive(Clone, Copy)]
pub struct Span {
    pub at: usize,
    pub count: usize,
    ghost near: { at ≤ 64 },
    ghost few: { count ≤ 64 },
}

// The lines' bits, of two words, the second after the first.
fn cut(first: u64, second: u64, lines: Span) -> u64
    ensures { (f : ℕ → Bool) → first ≡ word 64 f → second ≡ word 64 (λ i. f (64 + i)) → result ≡ word lines.count (λ i. f (lines.at + i)) }
{
    let inside = words::low_bits(lines.count);
    if lines.at == 64 {
        return inside & second;
    }
    inside & ((first >> lines.at) | ((second << 1) << (63 - lines.at)))
}

// The sets of counters, by their planes.
pub fn thresholds(p: Threes) -> [u64; LEVELS]
    ensures { (n : ℕ) (f : ℕ → ℕ) → ((t : ℕ) → f t < 8) → AreThrees n f p → result ≡ sets_of n f }
{
    let Threes { planes, top } = p;
    let Planes { low, high } = planes;
    let some = low | high;
    let both = low & high;
    [
        some | top,
        high | top,
        both | top,
        top,
        some & top,
        high & top,
        both & top,
        0,
    ]
}

// The sets of lines, by the planes of the first 64 counters and of the others.
pub fn sets<C: Narrow>(first: C, second: C, lines: Span) -> [u64; LEVELS]
    ensures { (f : ℕ → ℕ) → ((t : ℕ) → f t < 8) → AreThrees 64 f (C.planes_of first) → AreThrees 64 (λ i. f (64 + i)) (C.planes_of second) → result ≡ sets_of lines.count (λ i. f (lines.at + i)) }
{
    let a = first.planes();
    let b = second.planes();
    thresholds(Threes {
        planes: Planes {
            low: cut(a.planes.low, b.planes.low, lines),
            high: cut(a.planes.high, b.planes.high, lines),
        },
        top: cut(a.top, b.top, lines),
    })
}
