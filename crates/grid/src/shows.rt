// What counters show of cells, whoever made them: how a read gets the data, and a store the bits that its cells have to hold.
ghost use Rattle.std.specs.Prelude.{◌≡◌, ◌≤◌, count_by, take, length};
ghost use Rattle.std.specs.List.{zip};
ghost use Rattle.grid.specs.Steps.{ShowSized, Shown, Shows, has_line};

use grid_sets::{Counters, LEVELS};
use refusals::Refusal;

// The greatest counter, where none is above `used`: how many of the first `used` pairs of sets have a line.
fn depth(rows: &[u64; LEVELS], columns: &[u64; LEVELS], used: usize) -> usize
    ensures { result ≡ count_by has_line (take used (zip rows.now columns.now)) }
{
    rows.iter()
        .zip(columns)
        .take(used)
        .filter(|(r, c)| !((**r == 0) & (**c == 0)))
        .count()
}

// Shows a block that is read, or says why not. Numbers and buffers come one by one, as C lends them.
pub fn show(
    rows: usize,
    columns: usize,
    k: usize,
    cells: &[u64],
    counters: &[u8],
    out: &mut [u64],
) -> Result<usize, Refusal>
    ensures { Shown rows columns k cells.now counters.now out.old result out.new }
{
    grid_checks::judge_read(rows, columns, k, cells.len(), counters.len(), out.len())?;
    if !grid_checks::within(cells, columns) {
        return Err(Refusal::BitPastEnd);
    }
    show_sized(columns, k, 0, cells, counters, out)
}

// Shows a block of numbers in range, buffers that are as long as they should be, and words within the columns. It answers the greatest counter, as far as that
// is in the first `upto` pairs of sets: a read needs none, and a store needs K. `columns` and `k` are two numbers: only this `requires` has a fact of them.
pub fn show_sized(
    columns: usize,
    k: usize,
    upto: usize,
    cells: &[u64],
    counters: &[u8],
    out: &mut [u64],
) -> Result<usize, Refusal>
    requires { ShowSized columns k cells.now counters.now out.old × (upto ≤ 8) }
    ensures { Shows (length cells.now) columns k upto cells.now counters.now out.old result out.new }
{
    let Counters {
        judged,
        rows: row_sets,
        columns: column_sets,
    } = grid_counters::unpack(k, cells.len(), columns, counters);
    judged?;
    // No counter is above K, so the first K pairs of sets say all of them.
    grid_patterns::invert(cells, &row_sets, &column_sets, k, out);
    Ok(depth(&row_sets, &column_sets, upto))
}
