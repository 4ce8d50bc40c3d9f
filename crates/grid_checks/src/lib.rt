// What is judged before a block is worked on: numbers, lengths, and bits past the last column. Each function answers for every argument.
#![tactic(auto)]

ghost use Rattle.std.specs.Prelude.{◌≡◌, not, ◌&&◌, ◌||◌, ℕ, ◌^◌, leb, length};
ghost use Rattle.refusals.specs.Numbers.{number_of};
ghost use Rattle.grid_promises.specs.Calls.{past};
ghost use Rattle.grid_checks.specs.Numbers.{judged, read_judged, plan_judged, store_judged, convert_judged};

use refusals::Refusal;

// Numbers that are out of range, or else lengths that are not right, are refused. `words` says whether every buffer of words has as many as there are rows: a
// test, since `judged` is handed one. Here and below numbers and lengths come one by one, in the order of the definitions.
fn judge(rows: usize, columns: usize, k: usize, counters: usize, words: bool) -> Result<(), Refusal>
    ensures { number_of result ≡ judged rows columns k counters words }
{
    if !grid_sizes::in_range(rows, columns, k) {
        return Err(Refusal::OutOfRange);
    }
    if words & grid_sizes::fits(k, rows + columns, counters) {
        Ok(())
    } else {
        Err(Refusal::WrongLength)
    }
}

// The numbers and lengths of a read.
pub fn judge_read(
    rows: usize,
    columns: usize,
    k: usize,
    cells: usize,
    counters: usize,
    out: usize,
) -> Result<(), Refusal>
    ensures { number_of result ≡ read_judged rows columns k cells counters out }
{
    judge(rows, columns, k, counters, (cells == rows) & (out == rows))
}

// Those of a plan.
pub fn judge_plan(
    rows: usize,
    columns: usize,
    k: usize,
    data: usize,
    mask: usize,
    values: usize,
    counters: usize,
) -> Result<(), Refusal>
    ensures { number_of result ≡ plan_judged rows columns k «data» mask values counters }
{
    let words = (data == rows) & ((mask == rows) & (values == rows));
    judge(rows, columns, k, counters, words)
}

// Those of a store.
pub fn judge_store(
    rows: usize,
    columns: usize,
    k: usize,
    data: usize,
    mask: usize,
    values: usize,
    counters: usize,
    cells: usize,
) -> Result<(), Refusal>
    ensures { number_of result ≡ store_judged rows columns k «data» mask values counters cells }
{
    let words = (data == rows) & ((mask == rows) & (values == rows));
    judge(rows, columns, k, counters, words & (cells == rows))
}

// Those of a conversion: the block is judged at the target too. Sizes first: `rows + columns` of any might overflow.
pub fn judge_convert(
    rows: usize,
    columns: usize,
    k: usize,
    to: usize,
    counters: usize,
    out: usize,
) -> Result<(), Refusal>
    ensures { number_of result ≡ convert_judged rows columns k to counters out }
{
    if !(grid_sizes::in_range(rows, columns, to) & (k <= to)) {
        return Err(Refusal::OutOfRange);
    }
    let room = grid_sizes::fits(to, rows + columns, out);
    judge(rows, columns, k, counters, room)
}

// The OR of all words: it has a bit past a column exactly if a word has.
fn joined(words: &[u64]) -> u64
    ensures { (n : ℕ) → leb (2 ^ n) result ≡ past n words.now }
{
    words.iter().fold(0, |all, word| word | all)
}

// No word has a bit past the last column. Where every bit has a column, none is looked at.
pub fn within(words: &[u64], columns: usize) -> bool
    ensures { result ≡ not (past columns words.now) }
{
    columns >= words::BITS || joined(words) < 1 << columns
}

// The OR of the words of three buffers of one length, in one pass. Apart from `joined`, for speed: three passes take longer.
fn joined_in_one_pass(data: &[u64], mask: &[u64], values: &[u64]) -> u64
    requires masks { length mask.now ≡ length «data».now }
    requires stuck_at { length values.now ≡ length «data».now }
    ensures { (n : ℕ) → leb (2 ^ n) result ≡ (past n «data».now || (past n mask.now || past n values.now)) }
{
    let mut all = 0;
    for i in 0..data.len() {
        all |= data[i] | mask[i] | values[i];
    }
    all
}

// The same of any three buffers.
fn joined_three(data: &[u64], mask: &[u64], values: &[u64]) -> u64
    ensures { (n : ℕ) → leb (2 ^ n) result ≡ (past n «data».now || (past n mask.now || past n values.now)) }
{
    if (mask.len() == data.len()) & (values.len() == data.len()) {
        return joined_in_one_pass(data, mask, values);
    }
    joined(data) | (joined(mask) | joined(values))
}

// None of the three has a bit past the last column. Three slices of any lengths: the `Rows` of a plan or a store are made in crates above this one.
pub fn all_within(data: &[u64], mask: &[u64], values: &[u64], columns: usize) -> bool
    ensures { result ≡ not (past columns «data».now || (past columns mask.now || past columns values.now)) }
{
    columns >= words::BITS || joined_three(data, mask, values) < 1 << columns
}
