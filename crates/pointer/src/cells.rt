// The 64 bytes of a row.
ghost use Rattle.std.specs.Prelude.{◌≡◌, ◌≤◌, length};
ghost use Rattle.bits.specs.Bits.{list, at, bytes};
ghost use Rattle.pointer_promises.specs.Pointer.{entry, shown, stored};

use crate::ROW_CELLS;
use crate::decode::{Row, entry_at};
use crate::octets::shown;
use crate::wanted::Wanted;

// What each position shows: its cell, or the bit of the active entry that names it.
pub fn show(cells: &[u8], row: &Row, out: &mut [u8])
    requires { (length cells.now ≡ 64) × (length out.old ≡ 64) }
    ensures { out.new ≡ bytes 64 (λ p. shown (list row.now.active (entry row.now.metadata.now)) p (at cells.now p)) }
{
    words::copy_bytes(cells, out);
    for i in 0..row.active {
        let e = entry_at(row.metadata, i);
        let q = e % ROW_CELLS / 8;
        out[q] = shown(out[q], e);
    }
}

// The stuck cells hold their values, the others the wanted bits.
pub fn store(wanted: &Wanted, cells: &mut [u8])
    requires { length cells.old ≡ 64 }
    ensures { cells.new ≡ bytes 64 (stored wanted.now.«data».now wanted.now.mask.now wanted.now.values.now) }
{
    for (j, cell) in cells.iter_mut().enumerate() {
        let bits = wanted.data[j];
        *cell = bits ^ (wanted.mask[j] & (bits ^ wanted.values[j]));
    }
}
