// A block's counters written as bytes: those of the levels of a plan, and those whose planes are given.
#![tactic(auto)]

mod apart;
mod fill;
mod lines;
mod narrow;
mod sides;
mod tally;

ghost use Rattle.std.specs.Prelude.{◌≡◌, ◌+◌, ◌^◌, ◌<◌, length};
ghost use Rattle.bits.specs.Bits.{list};
ghost use Rattle.rdis.specs.Packing.{width as width_of, bytes_for, packed};
ghost use Rattle.grid_sets.specs.Promises.{packable as is_packable, Pack};
ghost use Rattle.grid_packing.specs.Promises.{FillsPlanes};
ghost use Rattle.grid_packing.specs.Steps.{counts_of};

use crate::lines::Lines;
use grid_sets::{LEVELS, Planes, Threes};
pub use narrow::Narrow;

// Whether a counter's bits hold the number of the levels, and there is room for the counters.
pub fn packable(k: usize, rows: usize, columns: usize, used: usize, bytes: usize) -> bool
    ensures { result ≡ is_packable k rows columns used bytes }
{
    (used < 1 << grid_sizes::width(k)) & grid_sizes::roomy(k, rows, columns, bytes)
}

// Writes the counters of the levels that took these sets of rows and of columns: how many took each row, then each column. Two arrays of sets and how many
// levels there are, since `Pack` speaks of these.
pub fn pack(
    k: usize,
    rows: usize,
    columns: usize,
    used: usize,
    rowsets: &[u64; LEVELS],
    columnsets: &[u64; LEVELS],
    out: &mut [u8],
)
    ensures { Pack k rows columns used rowsets.now columnsets.now out.old out.new }
{
    if packable(k, rows, columns, used, out.len()) {
        let row_lines = Lines { count: rows };
        let column_lines = Lines { count: columns };
        pack_levels(k, row_lines, column_lines, used, rowsets, columnsets, out);
    }
}

// The counters of one level are a word, and those of up to three have two planes: the fewer words, the less there is to do.
fn pack_levels(
    k: usize,
    rows: Lines,
    columns: Lines,
    used: usize,
    rowsets: &[u64; LEVELS],
    columnsets: &[u64; LEVELS],
    out: &mut [u8],
)
    requires few { used < 8 }
    requires held { used < 2 ^ width_of k }
    requires sized { length out.old ≡ bytes_for (width_of k) (rows.count + columns.count) }
    ensures { out.new ≡ packed (width_of k) (counts_of rows.count columns.count used rowsets.now columnsets.now) }
{
    if used == 1 {
        pack_narrow::<u64>(k, rows, columns, &rowsets[..used], &columnsets[..used], out);
    } else if used < 4 {
        pack_narrow::<Planes>(k, rows, columns, &rowsets[..used], &columnsets[..used], out);
    } else {
        pack_narrow::<Threes>(k, rows, columns, &rowsets[..used], &columnsets[..used], out);
    }
}

// Writes those of as many levels as there are sets, as planes of type `C`.
fn pack_narrow<C: Narrow>(
    k: usize,
    rows: Lines,
    columns: Lines,
    rowsets: &[u64],
    columnsets: &[u64],
    out: &mut [u8],
)
    requires few { length rowsets.now < C.limit }
    requires held { length rowsets.now < 2 ^ width_of k }
    requires as_many { length columnsets.now ≡ length rowsets.now }
    requires sized { length out.old ≡ bytes_for (width_of k) (rows.count + columns.count) }
    ensures { out.new ≡ packed (width_of k) (counts_of rows.count columns.count (length rowsets.now) rowsets.now columnsets.now) }
{
    let r = tally::tally::<C>(rowsets, rows).planes();
    let c = tally::tally::<C>(columnsets, columns).planes();
    fill::fill(
        out,
        k,
        C::from_planes(sides::first(r, c, rows)),
        C::from_planes(sides::second(c, rows)),
    );
}

// Writes the counters of no level.
pub fn clear(out: &mut [u8])
    ensures { out.new ≡ list (length out.old) (λ _. 0) }
{
    out.fill(0);
}

// Stores 128 counters, which have these planes, at K as far as there are bytes.
pub fn fill_planes(out: &mut [u8], k: usize, first: Threes, second: Threes)
    ensures { FillsPlanes (width_of k) first second out.old out.new }
{
    fill::fill(out, k, first, second);
}
