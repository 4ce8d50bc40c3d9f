// What a write is to store: the active entries with their data bits, and one more for each unserved position.
ghost use Rattle.std.specs.Prelude.{◌≡◌, ℕ, ◌≤◌, ◌<◌, length, IfOk, MatchResult};
ghost use Rattle.bits.specs.Bits.{list};
ghost use Rattle.refusals.specs.Numbers.{number_of};
ghost use Rattle.pointer_promises.specs.Pointer.{entry, write_number};
ghost use Rattle.pointer.specs.Steps.{unserved_at, Planned, TooMany, Made};

use crate::decode::{Row, found};
use crate::encode::{counted, kept, renewed};
use crate::wanted::Wanted;
use crate::{DIGITS, ROW_BYTES};
use refusals::Refusal;

// What goes into the cells, how many entries are active afterwards, how many of them are new, and the metadata's digits.
#[derive(Drop)]
pub struct Plan<'a> {
    pub wanted: Wanted<'a>,
    pub active: usize,
    pub new: usize,
    pub digits: [usize; DIGITS],
}

// Everything is judged first, and nothing is stored here.
pub fn made<'a>(
    n: usize,
    data: &'a [u8],
    mask: &'a [u8],
    values: &'a [u8],
    cells: usize,
    metadata: &[u8],
) -> Result<Plan<'a>, Refusal>
    ensures number { number_of result ≡ write_number n «data».now mask.now values.now cells metadata.now }
    ensures made { IfOk result (λ plan. let w = plan.wanted in
        Made n «data».now mask.now values.now cells metadata.now w.«data».now w.mask.now w.values.now plan.active plan.new plan.digits) }
{
    let fixed = (data.len() == ROW_BYTES)
        & (mask.len() == ROW_BYTES)
        & (values.len() == ROW_BYTES)
        & (cells == ROW_BYTES);
    let (row, served) = found(n, fixed, metadata)?;
    let wanted = Wanted { data, mask, values };
    let Entries { active, digits } = planned(&wanted, &row, &served)?;
    Ok(Plan {
        wanted,
        active,
        new: active - row.active,
        digits: counted(&row, digits, active),
    })
}

// How many entries are needed, and their digits: an array with a count beside it, since there is no heap here.
#[derive(Drop)]
struct Entries {
    active: usize,
    digits: [usize; DIGITS],
}

// Byte by byte, and in each from one unserved position to the next; it ends as soon as there is no entry left.
fn planned(wanted: &Wanted, row: &Row, served: &[u8; ROW_BYTES]) -> Result<Entries, Refusal>
    ensures { let r = row.now in let es = list r.active (entry r.metadata.now) in
        let w = wanted.now in let f = unserved_at w.«data».now w.mask.now w.values.now served.now in
        MatchResult result (λ all. Planned r.n w.«data».now f es all.active all.digits) (λ e. (e ≡ Refusal.NoEntryLeft) × TooMany r.n f es) }
{
    let mut digits = kept(wanted.data, row);
    let mut active = row.active;
    for i in 0..ROW_BYTES {
        for k in words::ones(u64::from(wanted.unserved(i, served[i]))) {
            active += 1;
            if row.n < active {
                return Err(Refusal::NoEntryLeft);
            }
            digits[active] = renewed(wanted.data, 8 * i + k);
        }
    }
    Ok(Entries { active, digits })
}
