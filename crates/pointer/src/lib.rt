// Pointer rows (document 000 as document 01 reads it): 512 cells, n correction entries and a full bit.
#![tactic(auto)]

mod octets; // bits of single bytes
mod decode; // from metadata to entries
mod wanted; // what a write is lent of its row
mod plan; // what a write is to store
mod encode; // from entries to metadata
mod cells; // the 64 bytes of a row

ghost use Rattle.pointer_promises.specs.Promises.{Read, Write};

use pointer_promises::{ReadAnswer, WriteAnswer};
use refusals::ACCEPTED;

// The cells of a row, and the bytes that hold a bit for each.
const ROW_CELLS: usize = 512;

const ROW_BYTES: usize = 64;
// The most entries of a row; each has nine bits of pointer and its replacement bit.
const ENTRIES: usize = 10;

const ENTRY_BITS: usize = 10;
// A digit for the full bit, one for each entry, and one more that stays 0: a byte of metadata is cut out of two digits.
const DIGITS: usize = 12;

// What each position shows goes into out.
pub fn read(n: usize, cells: &[u8], metadata: &[u8], out: &mut [u8]) -> ReadAnswer
    ensures { Read n cells.now metadata.now out.old result out.new }
{
    let fixed = (cells.len() == ROW_BYTES) & (out.len() == ROW_BYTES);
    match decode::found(n, fixed, metadata) {
        Ok((row, _)) => {
            cells::show(cells, &row, out);
            ReadAnswer { number: ACCEPTED }
        }
        Err(refusal) => ReadAnswer {
            number: refusal.number(),
        },
    }
}

// The data goes into the cells, and what the stuck ones cannot hold into the entries. Everything is worked out before the first store.
pub fn write(
    n: usize,
    data: &[u8],
    mask: &[u8],
    values: &[u8],
    cells: &mut [u8],
    metadata: &mut [u8],
) -> WriteAnswer
    ensures { Write n «data».now mask.now values.now cells.old metadata.old result cells.new metadata.new }
{
    match plan::made(n, data, mask, values, cells.len(), metadata) {
        Ok(plan) => {
            cells::store(&plan.wanted, cells);
            encode::store(&plan.digits, metadata);
            WriteAnswer {
                number: ACCEPTED,
                active: plan.active,
                new: plan.new,
            }
        }
        Err(refusal) => WriteAnswer {
            number: refusal.number(),
            active: 0,
            new: 0,
        },
    }
}
