// Counters from one K to another: planes of 64 of them, rows and columns alike, from bytes and to bytes of any width.
ghost use Rattle.grid_sets.specs.Promises.{Convert};

use crate::held::Held;
use crate::judge::none_above;
use crate::sets::thresholds;
use refusals::Refusal;

// Writes the counters that bytes hold at K as bytes at the target `to`, judged.
pub fn convert(
    k: usize,
    to: usize,
    rows: usize,
    columns: usize,
    bytes: &[u8],
    out: &mut [u8],
) -> Result<(), Refusal>
    ensures { Convert k to rows columns bytes.now out.old result out.new }
{
    let held = Held::new(k, rows, columns, bytes)?;
    if !grid_packing::packable(to, rows, columns, k, out.len()) {
        return Err(Refusal::WrongLength);
    }
    let first = held.planes(0);
    let second = held.planes(64);
    held.spare_clear()?;
    none_above(&thresholds(first), &thresholds(second), k, 64)?;
    grid_packing::fill_planes(out, to, first, second);
    Ok(())
}
