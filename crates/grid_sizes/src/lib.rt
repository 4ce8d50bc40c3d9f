// The sizes of a grid block: which rows, columns and K are in range, how many bits a counter has, and how many bytes counters take. Each function answers for
// every argument.
#![tactic(auto)]

ghost use Rattle.std.specs.Prelude.{◌≡◌, cond, leb};
ghost use Rattle.rdis.specs.Packing.{width as width_of, bytes_for};
ghost use Rattle.grid_sets.specs.Promises.{fit, roomy as is_roomy};
ghost use Rattle.grid_promises.specs.Calls.{between, in_range};

use grid_sets::LINES;

// The largest K.
const MOST_LEVELS: usize = 7;

// The most counters that a block has: one for each of 64 rows and 64 columns.
const MOST_COUNTERS: usize = 128;

// From the first to the last. Not `(first..=last).contains(&x)`: its contract speaks of a comparison of any type, and the proof would take laws of it.
fn is_between(first: usize, last: usize, x: usize) -> bool
    ensures { result ≡ between first last x }
{
    first <= x && x <= last
}

// Whether the rows, the columns and K lie in their ranges.
pub fn in_range(rows: usize, columns: usize, k: usize) -> bool
    ensures { result ≡ in_range rows columns k }
{
    is_between(1, LINES, rows) & (is_between(1, LINES, columns) & is_between(1, MOST_LEVELS, k))
}

// How many bits a counter has.
pub fn width(k: usize) -> usize
    ensures { result ≡ width_of k }
{
    if k <= 1 {
        return 1;
    }
    if k <= 3 { 2 } else { 3 }
}

// How many bytes `count` counters take, and 0 for more than a block has: their bits might overflow. Its contract, which docs/PROMISES.md lists, says 0 there.
pub fn bytes_of(k: usize, count: usize) -> usize
    ensures { result ≡ cond (leb count 128) (bytes_for (width_of k) count) 0 }
{
    if count > MOST_COUNTERS {
        return 0;
    }
    (width(k) * count + 7) / 8
}

// Whether `count` counters take just this number of bytes.
pub fn fits(k: usize, count: usize, bytes: usize) -> bool
    ensures { result ≡ fit k count bytes }
{
    (count <= MOST_COUNTERS) & (bytes == bytes_of(k, count))
}

// Whether the counters of these lines take just this number of bytes. Sizes first: `rows + columns` of any might overflow.
pub fn roomy(k: usize, rows: usize, columns: usize, bytes: usize) -> bool
    ensures { result ≡ is_roomy k rows columns bytes }
{
    if !((rows <= LINES) & (columns <= LINES)) {
        return false;
    }
    fits(k, rows + columns, bytes)
}
