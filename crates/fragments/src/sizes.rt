// The numbers of a block that lie in their ranges, and the lengths that follow from them.
ghost use Rattle.std.specs.Prelude.{◌≡◌, ◌+◌, ◌<◌, IfOk, IfErr};
ghost use Rattle.grid_promises.specs.Refusals.{InRange};
ghost use Rattle.fragment_promises.specs.Transfers.{counter_bytes, size};
ghost use Rattle.refusals.specs.declared.Refusal.TheVariants.{OutOfRange, LongBlock};

use refusals::Refusal;

// Rows, columns and K, all of them in range.
#[derive(Clone, Copy)]
pub struct Sizes {
    pub rows: usize,
    pub columns: usize,
    pub k: usize,
    ghost in_range: { InRange rows columns k },
}

impl Sizes {
    // These numbers as sizes, or that one of them lies outside its range.
    pub fn new(rows: usize, columns: usize, k: usize) -> Result<Sizes, Refusal>
        ensures kept { IfOk result (λ s. (s.rows ≡ rows) × (s.columns ≡ columns) × (s.k ≡ k)) }
        ensures refused { IfErr result (λ e. (e ≡ OutOfRange) × (InRange rows columns k → ⊥)) }
    {
        if grid_sizes::in_range(rows, columns, k) {
            Ok(Sizes { rows, columns, k })
        } else {
            Err(Refusal::OutOfRange)
        }
    }

    // How many bytes hold the counters of a block.
    pub fn counter_bytes(self) -> usize
        ensures { result ≡ counter_bytes self.rows self.columns self.k }
    {
        grid_sizes::bytes_of(self.k, self.rows + self.columns)
    }

    // The length of a block in bytes.
    pub fn block_bytes(self) -> usize
        ensures { result ≡ size self.rows self.columns self.k }
    {
        self.counter_bytes() + 8 * self.rows
    }

    // How many bytes a block lacks where `taken` were taken, or that these are more than it has.
    pub fn lacking(self, taken: usize) -> Result<usize, Refusal>
        ensures counted { IfOk result (λ n. taken + n ≡ size self.rows self.columns self.k) }
        ensures refused { IfErr result (λ e. (e ≡ LongBlock) × (size self.rows self.columns self.k < taken)) }
    {
        let bytes = self.block_bytes();
        if taken > bytes {
            Err(Refusal::LongBlock)
        } else {
            Ok(bytes - taken)
        }
    }
}
