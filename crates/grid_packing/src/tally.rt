// The counters of levels as planes: how many of the sets that the levels took have each line, 64 lines at once.
ghost use Rattle.std.specs.Prelude.{ℕ, ◌+◌, ◌<◌, length};
ghost use Rattle.bits.specs.Bits.{num, has};
ghost use Rattle.grid_sets.specs.Sets.{times};
ghost use Rattle.grid_sets.specs.Planes.{AreThrees};

use crate::lines::Lines;
use crate::narrow::Narrow;
use grid_sets::{Planes, Threes};

// Counts one set more: adds 1 to the counters of its lines.
fn with_set(p: Threes, set: u64) -> Threes
    ensures { (f : ℕ → ℕ) → AreThrees 64 f p → AreThrees 64 (λ i. num (has set i) + f i) result }
{
    let Planes { low, high } = p.planes;
    Threes {
        planes: Planes {
            low: low ^ set,
            high: high ^ (low & set),
        },
        top: p.top ^ (high & (low & set)),
    }
}

// The same counters without the lines past the last.
fn within(p: Threes, lines: Lines) -> Threes
    ensures { (f : ℕ → ℕ) → AreThrees 64 f p → AreThrees lines.count f result }
{
    let inside = words::low_bits(lines.count);
    Threes {
        planes: Planes {
            low: inside & p.planes.low,
            high: inside & p.planes.high,
        },
        top: inside & p.top,
    }
}

// How many of the sets have each line. The sets may have lines past the last.
pub fn tally<C: Narrow>(sets: &[u64], lines: Lines) -> C
    requires { length sets.now < C.limit }
    ensures { AreThrees lines.count (times sets.now (length sets.now)) (C.planes_of result) }
{
    let mut p = Threes {
        planes: Planes { low: 0, high: 0 },
        top: 0,
    };
    for set in sets {
        p = with_set(p, *set);
    }
    C::from_planes(within(p, lines))
}
