// The planes of 64 counters from bytes.
ghost use Rattle.std.specs.Prelude.{◌≡◌, ℕ, ◌+◌, ◌%◌, ◌≤◌};
ghost use Rattle.rdis.specs.Packing.{counter};
ghost use Rattle.grid_sets.specs.Planes.{AreThrees};

use grid_packing::Narrow;

// Planes that can be read, with the widths that lie in bytes as this type reads them.
pub trait Read: Narrow {
    // The widths of the counters.
    ghost takes: { ℕ → Type 0 };

    // The planes of the 64 counters from counter `first` on, with 0 past the end.
    fn read(bytes: &[u8], width: usize, first: usize) -> Self
        requires width { takes width }
        requires first { (first % 8 ≡ 0) × (first ≤ 64) }
        ensures { AreThrees 64 (λ i. counter width bytes.now (first + i)) (Self.planes_of result) };
}
