// A block's counters read from bytes: which counters bytes hold, as sets of lines, and (in conversion) those at another K.
#![tactic(auto)]

pub mod conversion;
mod held;
mod judge;
mod planes;
mod read;
mod sets;
mod threes;

ghost use Rattle.grid_sets.specs.Promises.{Unpack};

use crate::held::Held;
use grid_sets::{Counters, LEVELS};

// The counters that bytes hold, as sets, judged. They are handed out refused or not, but for bytes of a wrong length, which hold none.
pub fn unpack(k: usize, rows: usize, columns: usize, bytes: &[u8]) -> Counters
    ensures { Unpack k rows columns bytes.now result }
{
    match Held::new(k, rows, columns, bytes) {
        Ok(held) => held.unpack(),
        Err(refusal) => Counters {
            judged: Err(refusal),
            rows: [0; LEVELS],
            columns: [0; LEVELS],
        },
    }
}
