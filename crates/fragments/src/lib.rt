// A grid read of a block that arrives in lumps: a start, lumps of bytes cut anywhere, and a finish, which is the read of the joined bytes.
// `start_at`, `lump_at` and `finish_at` are lent a transfer and copy nothing of it; `start`, `lump` and `finish` take and return a whole one.
#![tactic(auto)]

mod sizes;
mod whole;

ghost use Rattle.std.specs.Prelude.{◌≡◌, ◌+◌, [], IfOk, length};
ghost use Rattle.bits.specs.Bits.{Below};
ghost use Rattle.bits.specs.First.{First};
ghost use Rattle.refusals.specs.Numbers.{number_of};
ghost use Rattle.fragment_promises.specs.Transfers.{size, standing, transfer};
ghost use Rattle.fragment_promises.specs.Demands.{length_refusals};
ghost use Rattle.fragment_promises.specs.Promises.{Start, Lump, Finishes, Missing};

use fragment_promises::{LONGEST, MissingAnswer, Transfer};
use grid_promises::ReadAnswer;
use refusals::{ACCEPTED, Refusal, number_of};
use sizes::Sizes;

// The bytes that count as taken after a refused lump: more than any block has.
const TOO_MANY: usize = LONGEST + 1;

// How many bytes a block of any numbers lacks where `taken` were taken, or the refusal that its record has noted.
fn lacking(rows: usize, columns: usize, k: usize, taken: usize) -> Result<usize, Refusal>
    ensures noted { number_of result ≡ standing rows columns k taken }
    ensures counted { IfOk result (λ n. taken + n ≡ size rows columns k) }
{
    Sizes::new(rows, columns, k)?.lacking(taken)
}

// Starts a transfer, whatever it held: no byte is taken yet. Like `lump_at` it answers a number, because C gets it.
pub fn start_at(transfer: &mut Transfer, rows: usize, columns: usize, k: usize) -> usize
    ensures { Start rows columns k result transfer.new }
{
    transfer.rows = rows;
    transfer.columns = columns;
    transfer.k = k;
    transfer.taken = 0;
    transfer.bytes = [0u8; LONGEST];
    number_of(lacking(rows, columns, k, 0))
}

// What a start and a lump return over a whole transfer: 0 or the number of the refusal, and the transfer from here on, refused or not.
// `Start` and `Lump` speak of both.
#[derive(Drop)]
pub struct Step {
    pub number: usize,
    pub transfer: Transfer,
}

// A transfer that is started with these numbers.
// It names the fields as `start_at` does: it makes a whole transfer, and `start_at` would have to be lent one, made and filled before.
pub fn start(rows: usize, columns: usize, k: usize) -> Step
    ensures { Start rows columns k result.number result.transfer }
{
    let number = number_of(lacking(rows, columns, k, 0));
    let none = [0u8; LONGEST];
    let transfer = Transfer {
        rows,
        columns,
        k,
        taken: 0,
        bytes: none,
    };
    Step { number, transfer }
}

// Takes a lump of bytes, or notes that it is refused. A record that has noted a refusal stays as it is.
fn take_lump(transfer: &mut Transfer, lump: &[u8]) -> Result<(), Refusal>
    ensures { Lump transfer.old lump.now (number_of result) transfer.new }
{
    let at = transfer.taken;
    let room = lacking(transfer.rows, transfer.columns, transfer.k, at)?;
    if lump.len() > room {
        transfer.taken = TOO_MANY;
        return Err(Refusal::LongBlock);
    }
    let end = at + lump.len();
    words::copy_bytes(lump, &mut transfer.bytes[at..end]);
    transfer.taken = end;
    Ok(())
}

// Takes a lump of bytes, and answers 0 or the number of its refusal, which the record has noted.
pub fn lump_at(transfer: &mut Transfer, lump: &[u8]) -> usize
    ensures { Lump transfer.old lump.now result transfer.new }
{
    number_of(take_lump(transfer, lump))
}

// `lump_at` of a whole transfer, which it takes and returns.
pub fn lump(t: Transfer, bytes: &[u8]) -> Step
    ensures { Lump t bytes.now result.number result.transfer }
{
    let mut transfer = t;
    let number = lump_at(&mut transfer, bytes);
    Step { number, transfer }
}

// How many bytes of the block are missing, where `taken` were taken.
pub fn missing(rows: usize, columns: usize, k: usize, taken: usize) -> MissingAnswer
    ensures { Missing rows columns k taken result }
{
    match lacking(rows, columns, k, taken) {
        Ok(bytes) => MissingAnswer {
            number: ACCEPTED,
            bytes,
        },
        Err(refusal) => MissingAnswer {
            number: refusal.number(),
            bytes: 0,
        },
    }
}

// The sizes of a block that is to be read, where `held` are its bytes and the output has `out` words; or the refusal of these.
fn finished(t: &Transfer, held: &[u8], out: usize) -> Result<Sizes, Refusal>
    ensures judged { First (length_refusals t.now.rows t.now.columns t.now.k t.now.taken (length held.now) out []) (number_of result) }
    ensures kept { IfOk result (λ s. (s.rows ≡ t.now.rows) × (s.columns ≡ t.now.columns) × (s.k ≡ t.now.k)) }
    ensures bytes { Below 256 held.now }
{
    let sizes = Sizes::new(t.rows, t.columns, t.k)?;
    sizes.lacking(t.taken)?;
    if out != t.rows {
        return Err(Refusal::WrongLength);
    }
    if held.len() < sizes.block_bytes() {
        return Err(Refusal::ShortBlock);
    }
    Ok(sizes)
}

// Reads the block into `out` if all of it was taken.
pub fn finish_at(transfer: &Transfer, out: &mut [u64]) -> ReadAnswer
    ensures { Finishes transfer.now out.old result out.new }
{
    let held = &transfer.bytes[..transfer.taken.min(LONGEST)];
    match finished(transfer, held, out.len()) {
        Ok(sizes) => whole::read_whole(sizes, held, out),
        Err(refusal) => ReadAnswer {
            number: refusal.number(),
            index: 0,
        },
    }
}

// `finish_at` of a whole transfer, which it takes.
pub fn finish(t: Transfer, out: &mut [u64]) -> ReadAnswer
    ensures { Finishes t out.old result out.new }
{
    finish_at(&t, out)
}
