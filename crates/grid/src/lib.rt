// Grid blocks: a grid of cells, one word a row, and a counter for each row and each column.
#![tactic(auto)]

mod shows;
mod stores;

ghost use Rattle.std.specs.Prelude.{◌≡◌, false, length};
ghost use Rattle.grid_promises.specs.Promises.{Read, Store};
ghost use Rattle.grid_promises.specs.Calls.{block, plan_past};
ghost use Rattle.grid_promises.specs.Conversion.{Convert};
ghost use Rattle.grid_levels.specs.Steps.{block_of, answered};
ghost use Rattle.grid.specs.Steps.{StoreSized, Converts};

pub use grid_levels::plan;
use grid_levels::{Rows, answered};
use grid_promises::{Answer, ConvertAnswer, ReadAnswer};
use grid_sets::LINES;
use refusals::{Refusal, index_of, number_of};

// Reads a block into `out` by its counters, whoever made them. C lends numbers and buffers one by one.
pub fn read(
    rows: usize,
    columns: usize,
    k: usize,
    cells: &[u64],
    counters: &[u8],
    out: &mut [u64],
) -> ReadAnswer
    ensures { Read rows columns k cells.now counters.now out.old result out.new }
{
    let shown = shows::show(rows, columns, k, cells, counters, out);
    ReadAnswer {
        number: number_of(shown),
        index: index_of(shown),
    }
}

// Stores the data by counters, whoever made them; or refuses where a stuck cell would then read wrong, and stores nothing. C lends data, mask and values one by
// one, of any lengths: they are `Rows` from where they are judged on.
pub fn store(
    rows: usize,
    columns: usize,
    k: usize,
    data: &[u64],
    mask: &[u64],
    values: &[u64],
    counters: &[u8],
    cells: &mut [u64],
) -> Answer
    ensures { Store (block rows columns «data».now mask.now values.now) k counters.now cells.old result cells.new }
{
    answered(try_store(rows, columns, k, data, mask, values, counters, cells))
}

// The store, or why there is none.
fn try_store(
    rows: usize,
    columns: usize,
    k: usize,
    data: &[u64],
    mask: &[u64],
    values: &[u64],
    counters: &[u8],
    cells: &mut [u64],
) -> Result<Answer, Refusal>
    ensures { Store (block rows columns «data».now mask.now values.now) k counters.now cells.old (answered result) cells.new }
{
    grid_checks::judge_store(
        rows,
        columns,
        k,
        data.len(),
        mask.len(),
        values.len(),
        counters.len(),
        cells.len(),
    )?;
    let lent = Rows { data, mask, values };
    store_sized(columns, k, &lent, counters, cells)
}

// The store of numbers in range and buffers that are as long as they should be. `columns` and `k` are two numbers: only this `requires` has a fact of them.
fn store_sized(
    columns: usize,
    k: usize,
    lent: &Rows,
    counters: &[u8],
    cells: &mut [u64],
) -> Result<Answer, Refusal>
    requires { StoreSized columns k lent.now.«data».now counters.now cells.old }
    ensures { let r = lent.now in Store (block_of columns r.«data».now r.mask.now r.values.now) k counters.now cells.old (answered result) cells.new }
{
    if !grid_checks::all_within(lent.data, lent.mask, lent.values, columns) {
        return Err(Refusal::BitPastEnd);
    }
    // An array for the most rows, cut to these: there is no heap here.
    let mut apart = [0u64; LINES];
    store_by(
        columns,
        k,
        lent,
        counters,
        &mut apart[..lent.data.len()],
        cells,
    )
}

// The store of words within the columns. A cell holds the bit that a read would show if the cell held the data bit: so the data is read, apart from the cells,
// since it is not known yet that they may be touched. `columns` and `k` are two numbers, as in `store_sized`.
fn store_by(
    columns: usize,
    k: usize,
    lent: &Rows,
    counters: &[u8],
    apart: &mut [u64],
    cells: &mut [u64],
) -> Result<Answer, Refusal>
    requires sized { StoreSized columns k lent.now.«data».now counters.now cells.old }
    requires inside { let r = lent.now in plan_past (block_of columns r.«data».now r.mask.now r.values.now) ≡ false }
    requires room { length apart.old ≡ length lent.now.«data».now }
    ensures { let r = lent.now in Store (block_of columns r.«data».now r.mask.now r.values.now) k counters.now cells.old (answered result) cells.new }
{
    let levels = shows::show_sized(columns, k, k, lent.data, counters, apart)?;
    let inverted = &Rows {
        data: apart,
        mask: lent.mask,
        values: lent.values,
    };
    if stores::misreads(inverted) {
        return Err(Refusal::Misread);
    }
    // Where no stuck cell reads wrong, the inverted data has the stuck values.
    words::copy(apart, cells);
    Ok(stores::counted(levels, lent))
}

// Converts a block's counters from K to the target `to`, an equal or a larger one; or refuses. Each counter keeps its number. C lends
// numbers and buffers one by one.
pub fn convert(
    rows: usize,
    columns: usize,
    k: usize,
    to: usize,
    counters: &[u8],
    out: &mut [u8],
) -> ConvertAnswer
    ensures { Convert rows columns k to counters.now out.old result out.new }
{
    let converted = try_convert(rows, columns, k, to, counters, out);
    ConvertAnswer {
        number: number_of(converted),
        index: index_of(converted),
    }
}

// The conversion, or why there is none.
fn try_convert(
    rows: usize,
    columns: usize,
    k: usize,
    to: usize,
    counters: &[u8],
    out: &mut [u8],
) -> Result<(), Refusal>
    ensures { Converts rows columns k to counters.now out.old result out.new }
{
    grid_checks::judge_convert(rows, columns, k, to, counters.len(), out.len())?;
    grid_counters::conversion::convert(k, to, rows, columns, counters, out)
}
