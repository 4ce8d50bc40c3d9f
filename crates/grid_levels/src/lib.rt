// The plan of a grid block: the levels that mask its faults, as counters. And what a store counts as a plan does: the rows that hold a stuck cell, and the
// wrong cells of one.
#![tactic(auto)]

mod levels;
mod rows;
mod stuck;

ghost use Rattle.std.specs.Prelude.{◌≡◌, not, cond, ◌&&◌, ℕ, ◌≤◌, eqb, leb, length, get_or};
ghost use Rattle.std.specs.Bool.{xor};
ghost use Rattle.bits.specs.Bits.{has, word};
ghost use Rattle.grid_promises.specs.Promises.{Plan};
ghost use Rattle.grid_promises.specs.Calls.{block};
ghost use Rattle.grid_levels.specs.Steps.{block_of, PlanSized, Refuses, answer_of, answered};

use grid_promises::Answer;
use grid_sets::{LEVELS, LINES};
use refusals::{ACCEPTED, Refusal};
pub use rows::Rows;

// The rows that hold a stuck cell, and none for more rows than a block has: its contract, which docs/PROMISES.md lists, says 0 there.
pub fn stuck_rows(mask: &[u64]) -> u64
    ensures { result ≡ cond (leb (length mask.now) 64) (word (length mask.now) (λ i. not (eqb (get_or mask.now i 0) 0))) 0 }
{
    if mask.len() > LINES {
        return 0;
    }
    stuck::stuck_rows(mask)
}

// The stuck cells of a row that are wrong for the data.
pub fn wrong_cells(want: u64, mask: u64, value: u64) -> u64
    ensures { (j : ℕ) → has result j ≡ (has mask j && xor (has want j) (has value j)) }
{
    stuck::stuck_as(true, want, mask, value)
}

// The answer that refuses, of a plan or a store. It counts nothing. Of two numbers, as docs/PROMISES.md lists it.
pub fn refused(number: usize, index: usize) -> Answer
    ensures { Refuses number index result }
{
    Answer {
        number,
        levels: 0,
        faults: 0,
        wrong: 0,
        right: 0,
        index,
    }
}

// What a plan or a store answers: the answer that it was accepted with, or the one of its refusal.
pub fn answered(judged: Result<Answer, Refusal>) -> Answer
    ensures { result ≡ answered judged }
{
    match judged {
        Ok(answer) => answer,
        Err(refusal) => refused(refusal.number(), refusal.index()),
    }
}

// The answer that accepts with these levels, where `faults` cells are stuck, and `wrong` of them wrong for the data. It has a `requires`, so it is not public:
// a store makes its answer itself.
fn accepted(levels: usize, faults: usize, wrong: usize) -> Answer
    requires { wrong ≤ faults }
    ensures { result ≡ answer_of levels faults wrong }
{
    Answer {
        number: ACCEPTED,
        levels,
        faults,
        wrong,
        right: faults - wrong,
        index: 0,
    }
}

// Works out levels that mask every fault for the data, and fills the counters with how many of them took each line; or refuses. It needs no cells. C lends
// data, mask and values one by one, of any lengths: they are `Rows` from where they are judged on.
pub fn plan(
    rows: usize,
    columns: usize,
    k: usize,
    data: &[u64],
    mask: &[u64],
    values: &[u64],
    counters: &mut [u8],
) -> Answer
    ensures { Plan (block rows columns «data».now mask.now values.now) k counters.old result counters.new }
{
    answered(try_plan(rows, columns, k, data, mask, values, counters))
}

// The plan, or why there is none.
fn try_plan(
    rows: usize,
    columns: usize,
    k: usize,
    data: &[u64],
    mask: &[u64],
    values: &[u64],
    counters: &mut [u8],
) -> Result<Answer, Refusal>
    ensures { Plan (block rows columns «data».now mask.now values.now) k counters.old (answered result) counters.new }
{
    grid_checks::judge_plan(
        rows,
        columns,
        k,
        data.len(),
        mask.len(),
        values.len(),
        counters.len(),
    )?;
    let lent = Rows { data, mask, values };
    plan_sized(columns, k, &lent, counters)
}

// The plan of numbers in range and buffers that are as long as they should be. `columns` and `k` are two numbers: only this `requires` has a fact of them.
fn plan_sized(columns: usize, k: usize, lent: &Rows, counters: &mut [u8]) -> Result<Answer, Refusal>
    requires { PlanSized columns k lent.now.«data».now counters.old }
    ensures { let r = lent.now in Plan (block_of columns r.«data».now r.mask.now r.values.now) k counters.old (answered result) counters.new }
{
    if !grid_checks::all_within(lent.data, lent.mask, lent.values, columns) {
        return Err(Refusal::BitPastEnd);
    }
    let first = lent.first_level();
    if first.takes.rows == 0 {
        grid_packing::clear(counters);
        return Ok(accepted(0, first.faults, first.wrong));
    }
    // Two arrays, since `pack` is lent two: docs/PROMISES.md lists its contract.
    let mut rowsets = [0u64; LEVELS];
    let mut columnsets = [0u64; LEVELS];
    let used = lent
        .descend(first.takes, true, k, 0, &mut rowsets, &mut columnsets)
        .ok_or(Refusal::Unmaskable)?;
    grid_packing::pack(
        k,
        lent.data.len(),
        columns,
        used,
        &rowsets,
        &columnsets,
        counters,
    );
    Ok(accepted(used, first.faults, first.wrong))
}
