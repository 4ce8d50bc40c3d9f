// What a store judges of its inverted data, and what it counts.
ghost use Rattle.std.specs.Prelude.{◌≡◌};
ghost use Rattle.grid_levels.specs.Steps.{Accepts};
ghost use Rattle.grid.specs.Steps.{any_differs};

use grid_levels::{Rows, stuck_rows, wrong_cells};
use grid_promises::Answer;
use refusals::ACCEPTED;

// Whether some stuck cell would read wrong: the data of these rows, inverted as a read will invert it back, is not its stuck value. A word a row, tested once.
pub fn misreads(inverted: &Rows) -> bool
    ensures { let r = inverted.now in result ≡ any_differs r.data.now r.mask.now r.values.now }
{
    let mut wrong = 0u64;
    for i in 0..inverted.data.len() {
        wrong |= inverted.mask[i] & (inverted.data[i] ^ inverted.values[i]);
    }
    wrong != 0
}

// The answer that accepts with these levels. The cells are counted in the rows that hold a stuck one: they are few. `first_level` of a plan sums the same:
// one function for both is compiled apart, and a plan takes longer. A plan's `accepted` has a `requires`, so it is not public, and the answer is made here.
pub fn counted(levels: usize, rows: &Rows) -> Answer
    ensures { let r = rows.now in Accepts r.data.now r.mask.now r.values.now levels result }
{
    let mut faults = 0;
    let mut wrong = 0;
    for i in words::ones(stuck_rows(rows.mask)) {
        let mask = rows.mask[i];
        let w = wrong_cells(rows.data[i], mask, rows.values[i]);
        faults += mask.count_ones() as usize;
        wrong += w.count_ones() as usize;
    }
    Answer {
        number: ACCEPTED,
        levels,
        faults,
        wrong,
        right: faults - wrong,
        index: 0,
    }
}
