// Inversion by the sets of a block's counters, whoever made them: a row's pattern is the XOR of the columns' sets over those numbers whose rows' set has it.
#![tactic(auto)]

ghost use Rattle.std.specs.Prelude.{◌≡◌, ◌&&◌, ◌^◌, ◌≤◌, ◌<◌, length};
ghost use Rattle.std.specs.Bool.{xor};
ghost use Rattle.bits.specs.Bits.{has, words, Below};
ghost use Rattle.rdis.specs.Block.{bit};
ghost use Rattle.grid_patterns.specs.Promises.{inverted_by, Invert};

use grid_sets::{LEVELS, LINES};

// Inverts the words of the rows that are in one set, at the columns of the other. Only those words are visited: in a block with few faults they are few.
fn flip(into: &mut [u64], rows: u64, columns: u64)
    requires { (length into.old ≤ 64) × (rows < 2 ^ length into.old) × Below (2 ^ 64) into.old }
    ensures { into.new ≡ words (length into.old) 64 (λ i j. xor (has rows i && has columns j) (bit into.old i j)) }
{
    for i in words::ones(rows) {
        into[i] ^= columns;
    }
}

// Copies the words, each inverted by its row's pattern: pair of sets by pair of sets. By number: by `zip` and `take` a read takes 11 instructions more.
fn fill(from: &[u64], rows: &[u64; LEVELS], columns: &[u64; LEVELS], used: usize, into: &mut [u64])
    requires { (used ≤ 8) × (length from.now ≤ 64) × (length into.old ≡ length from.now) }
    ensures { into.new ≡ words (length from.now) 64 (inverted_by rows.now columns.now used from.now) }
{
    words::copy(from, into);
    let inside = words::low_bits(from.len());
    for m in 0..used {
        flip(into, rows[m] & inside, columns[m]);
    }
}

// Fills `into` with the words, inverted, where the sizes are those of a block and there is a word of room for each row. Two arrays of sets and how many pairs
// are used, since `Invert` speaks of these.
pub fn invert(
    from: &[u64],
    rows: &[u64; LEVELS],
    columns: &[u64; LEVELS],
    used: usize,
    into: &mut [u64],
)
    ensures { Invert rows.now columns.now used from.now into.old into.new }
{
    if (from.len() <= LINES) & ((used <= LEVELS) & (into.len() == from.len())) {
        fill(from, rows, columns, used, into);
    }
}
