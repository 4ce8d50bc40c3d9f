// The levels of a plan, over sets of rows and columns held as bits of words.
ghost use Rattle.std.specs.Prelude.{◌≡◌, ◌+◌, ◌^◌, ◌<◌, ◌≤◌, length};
ghost use Rattle.grid_levels.specs.Steps.{subgrid, Takes, Planned, Begins};

use crate::rows::Rows;
use crate::stuck::{mark_if, stuck_rows};
use grid_sets::LEVELS;

// Rows and columns of a subgrid.
#[derive(Drop)]
pub struct Sub {
    pub rows: u64,
    pub columns: u64,
}

// How many cells are stuck, how many of them wrong, and what the first level takes.
#[derive(Drop)]
pub struct FirstLevel {
    pub faults: usize,
    pub wrong: usize,
    pub takes: Sub,
}

impl Rows<'_> {
    // Counts the stuck cells, and finds what the first level takes, in one pass over the rows that hold a stuck cell. `counted` of a store sums the same: one
    // function for both is compiled apart, and a plan takes longer.
    pub(crate) fn first_level(&self) -> FirstLevel
        ensures { Begins self.now.data.now self.now.mask.now self.now.values.now result }
    {
        let mut faults = 0;
        let mut wrong = 0;
        let mut rows = 0u64;
        let mut columns = 0u64;
        for i in words::ones(stuck_rows(self.mask)) {
            let w = self.stuck_as(true, i);
            faults += self.mask[i].count_ones() as usize;
            wrong += w.count_ones() as usize;
            rows |= mark_if(w != 0, i);
            columns |= w;
        }
        FirstLevel {
            faults,
            wrong,
            takes: Sub { rows, columns },
        }
    }

    // One level: the rows and the columns of the subgrid that hold a wrong cell of it, or a right one. It visits the subgrid's rows alone. `wrong` is a
    // Boolean: `Takes` computes with it.
    fn take_level(&self, among: Sub, wrong: bool) -> Sub
        requires { among.rows < 2 ^ length self.now.data.now }
        ensures { Takes self.now.data.now self.now.mask.now self.now.values.now (subgrid among) wrong (subgrid result) }
    {
        let mut rows = 0u64;
        let mut columns = 0u64;
        for i in words::ones(among.rows) {
            let w = self.stuck_as(wrong, i) & among.columns;
            rows |= mark_if(w != 0, i);
            columns |= w;
        }
        Sub { rows, columns }
    }

    // The levels from here on, of which the first takes `taken`; of that the same question is asked again, in the other sense. It answers how many levels there
    // are in all, those before `at` too, or none where `allowed` more are too few. It keeps what they take in two arrays, from `at` on. `wrong` is a Boolean,
    // and there are two arrays: `Planned` computes with them.
    pub(crate) fn descend(
        &self,
        taken: Sub,
        wrong: bool,
        allowed: usize,
        at: usize,
        rows: &mut [u64; LEVELS],
        columns: &mut [u64; LEVELS],
    ) -> Option<usize>
        requires inside { taken.rows < 2 ^ length self.now.data.now }
        requires room { (at + allowed ≤ 8) × (length rows.old ≡ 8) × (length columns.old ≡ 8) }
        ensures { Planned self.now.data.now self.now.mask.now self.now.values.now (subgrid taken) wrong allowed at rows.old columns.old rows.new columns.new result }
    {
        if taken.rows == 0 {
            return Some(at);
        }
        if allowed == 0 {
            return None;
        }
        rows[at] = taken.rows;
        columns[at] = taken.columns;
        let next = self.take_level(taken, !wrong);
        self.descend(next, !wrong, allowed - 1, at + 1, rows, columns)
    }
}
