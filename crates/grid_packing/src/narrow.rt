// The planes of 64 counters that are below a limit, in as many words as these counters have bits. What is done with counters is written once, for three planes.
// Where a type of fewer words is passed on, the compiler leaves out what would be done with the others.
ghost use Rattle.std.specs.Prelude.{◌≡◌, ℕ, ◌<◌};
ghost use Rattle.grid_sets.specs.declared.Threes.{Threes};
ghost use Rattle.grid_sets.specs.Planes.{AreThrees};
ghost use Rattle.grid_packing.specs.Steps.{ones_of, twos_of};

use grid_sets::{Planes, Threes};

pub trait Narrow: Copy + Drop {
    // The three planes: one that there is no word for is 0.
    ghost planes_of: { Self → Threes };

    // What is kept of three planes.
    ghost kept: { Threes → Self };

    // What the counters are below.
    ghost limit: { ℕ };

    // The counters as three planes.
    fn planes(self) -> Threes
        ensures { result ≡ planes_of self };

    // What is kept of these planes, whatever they are. Of counters below the limit that is all.
    fn from_planes(p: Threes) -> Self
        ensures kept { result ≡ kept p }
        ensures all { (n : ℕ) (f : ℕ → ℕ) → ((i : ℕ) → f i < limit) → AreThrees n f p → planes_of result ≡ p };
}

// Counters that are 0 or 1, as those of one level are.
impl Narrow for u64 {
    ghost planes_of = { ones_of };

    ghost kept = { λ p. p.planes.low };

    ghost limit = { 2 };

    fn planes(self) -> Threes {
        Threes {
            planes: Planes { low: self, high: 0 },
            top: 0,
        }
    }

    fn from_planes(p: Threes) -> u64 {
        p.planes.low
    }
}

impl Narrow for Planes {
    ghost planes_of = { twos_of };

    ghost kept = { λ p. p.planes };

    ghost limit = { 4 };

    fn planes(self) -> Threes {
        Threes {
            planes: self,
            top: 0,
        }
    }

    fn from_planes(p: Threes) -> Planes {
        p.planes
    }
}

impl Narrow for Threes {
    ghost planes_of = { λ p. p };

    ghost kept = { λ p. p };

    ghost limit = { 8 };

    fn planes(self) -> Threes {
        self
    }

    fn from_planes(p: Threes) -> Threes {
        p
    }
}
