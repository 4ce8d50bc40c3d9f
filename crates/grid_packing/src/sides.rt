// The columns' bits after the rows': of two words, and of two times three planes.
ghost use Rattle.std.specs.Prelude.{◌≡◌, Bool, false, ℕ, ◌+◌, ◌≤◌};
ghost use Rattle.bits.specs.Bits.{word};
ghost use Rattle.grid_sets.specs.Planes.{AreThrees};

use crate::lines::Lines;
use grid_sets::{Planes, Threes};

// The first 64 bits of two words side by side, the second after the bits of the first, one for each row.
pub fn front(a: u64, b: u64, rows: Lines) -> u64
    ensures { (f : ℕ → Bool) → a ≡ word rows.count f → b ≡ word 64 (λ i. f (rows.count + i)) → result ≡ word 64 f }
{
    if rows.count == 64 {
        return a;
    }
    (b << rows.count) | a
}

// The bits after those: the last bits of the second word, as many as there are rows, and then 0.
pub fn back(b: u64, rows: Lines) -> u64
    ensures { (f : ℕ → Bool) → b ≡ word 64 (λ i. f (rows.count + i)) → ((t : ℕ) → rows.count + 64 ≤ t → f t ≡ false) → result ≡ word 64 (λ i. f (64 + i)) }
{
    if rows.count == 0 {
        return 0;
    }
    b >> (64 - rows.count)
}

// The planes of the first 64 of all counters: those of the rows, then those of the columns.
pub fn first(r: Threes, c: Threes, rows: Lines) -> Threes
    ensures { (f : ℕ → ℕ) → AreThrees rows.count f r → AreThrees 64 (λ i. f (rows.count + i)) c → AreThrees 64 f result }
{
    Threes {
        planes: Planes {
            low: front(r.planes.low, c.planes.low, rows),
            high: front(r.planes.high, c.planes.high, rows),
        },
        top: front(r.top, c.top, rows),
    }
}

// The planes of the other 64.
pub fn second(c: Threes, rows: Lines) -> Threes
    ensures { (f : ℕ → ℕ) → AreThrees 64 (λ i. f (rows.count + i)) c → ((t : ℕ) → rows.count + 64 ≤ t → f t ≡ 0) → AreThrees 64 (λ i. f (64 + i)) result }
{
    Threes {
        planes: Planes {
            low: back(c.planes.low, rows),
            high: back(c.planes.high, rows),
        },
        top: back(c.top, rows),
    }
}
