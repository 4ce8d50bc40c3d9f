// The bytes of a block's counters, as long as they should be, and what is read and judged of them.
ghost use Rattle.std.specs.Prelude.{◌≡◌, ℕ, ◌+◌, ◌%◌, ◌≤◌, ◌<◌, false, length, IfOk, IfErr};
ghost use Rattle.refusals.specs.declared.Refusal.TheVariants.{WrongLength};
ghost use Rattle.bits.specs.Bits.{Below};
ghost use Rattle.rdis.specs.Packing.{width as width_of, bytes_for, counter};
ghost use Rattle.grid_sets.specs.Planes.{AreThrees};
ghost use Rattle.grid_sets.specs.Promises.{roomy as is_roomy, Unpack};
ghost use Rattle.grid_counters.specs.Steps.{spare_judged};

use crate::judge::none_above;
use crate::read::Read;
use crate::sets::{Span, sets};
use grid_packing::Narrow;
use grid_sets::{Counters, Planes, Threes};
use refusals::Refusal;

// They have the length that K, the rows and the columns make, so no counter of these lies past their end.
#[derive(Drop)]
pub struct Held<'a> {
    bytes: &'a [u8],
    k: usize,
    width: usize,
    rows: usize,
    columns: usize,
    ghost few_rows: { rows ≤ 64 },
    ghost few_columns: { columns ≤ 64 },
    ghost wide: { width ≡ width_of k },
    ghost narrow: { (0 < width) × (width ≤ 3) },
    ghost small: { Below 256 bytes.now },
    ghost sized: { length bytes.now ≡ bytes_for (width_of k) (rows + columns) },
}

impl<'a> Held<'a> {
    // Refuses bytes of a wrong length, which hold no counters.
    pub fn new(k: usize, rows: usize, columns: usize, bytes: &'a [u8]) -> Result<Held<'a>, Refusal>
        ensures ok { IfOk result (λ h. (h.k ≡ k) × (h.rows ≡ rows) × (h.columns ≡ columns) × (h.bytes.now ≡ bytes.now)) }
        ensures err { IfErr result (λ e. (e ≡ WrongLength) × (is_roomy k rows columns (length bytes.now) ≡ false)) }
    {
        if grid_sizes::roomy(k, rows, columns, bytes.len()) {
            Ok(Held {
                bytes,
                k,
                width: grid_sizes::width(k),
                rows,
                columns,
            })
        } else {
            Err(Refusal::WrongLength)
        }
    }

    // The bits past the last counter are 0.
    pub fn spare_clear(&self) -> Result<(), Refusal>
        ensures { result ≡ spare_judged (width_of self.now.k) (self.now.rows + self.now.columns) self.now.bytes.now }
    {
        let p = self.width * (self.rows + self.columns);
        if words::byte(self.bytes, p / 8) >> (p % 8) == 0 {
            Ok(())
        } else {
            Err(Refusal::BitPastEnd)
        }
    }

    // The planes of the 64 counters from counter `first` on, with 0 past the end. The test of the width picks a type: each width is read in its own way.
    pub fn planes(&self, first: usize) -> Threes
        requires { (first % 8 ≡ 0) × (first ≤ 64) }
        ensures { AreThrees 64 (λ i. counter (width_of self.now.k) self.now.bytes.now (first + i)) result }
    {
        if self.width == 3 {
            Threes::read(self.bytes, self.width, first)
        } else {
            Planes::read(self.bytes, self.width, first).planes()
        }
    }

    // The counters as sets, judged. The width picks a type, as in `planes`.
    pub fn unpack(&self) -> Counters
        ensures { Unpack self.now.k self.now.rows self.now.columns self.now.bytes.now result }
    {
        if self.width == 3 {
            self.unpack_narrow::<Threes>()
        } else {
            self.unpack_narrow::<Planes>()
        }
    }

    // The counters of a width that `C` takes, as sets, judged.
    fn unpack_narrow<C: Read>(&self) -> Counters
        requires { C.takes self.now.width }
        ensures { Unpack self.now.k self.now.rows self.now.columns self.now.bytes.now result }
    {
        let first = C::read(self.bytes, self.width, 0);
        let second = C::read(self.bytes, self.width, 64);
        let before = Span {
            at: 0,
            count: self.rows,
        };
        let after = Span {
            at: self.rows,
            count: self.columns,
        };
        let rows = sets(first, second, before);
        let columns = sets(first, second, after);
        let lines = none_above(&rows, &columns, self.k, self.rows);
        Counters {
            judged: self.spare_clear().and(lines),
            rows,
            columns,
        }
    }
}
