// The read of a block all of whose bytes are there.
ghost use Rattle.std.specs.Prelude.{◌≡◌, ◌+◌, ◌*◌, ◌≤◌, length};
ghost use Rattle.fragment_promises.specs.Transfers.{size, words_from};
ghost use Rattle.fragments.specs.Steps.{ReadsWhole};

use crate::sizes::Sizes;
use grid_promises::ReadAnswer;
use grid_sets::LINES;

// The words of 8 bytes from byte `from` on, as many as `all` has. Eight bytes are cut out by themselves: the compiler then makes one load of them.
fn words_into(bytes: &[u8], from: usize, all: &mut [u64])
    requires { (length all.old ≤ 64) × (from ≤ 48) × (from + 8 * length all.old ≤ length bytes.now) }
    ensures { all.new ≡ words_from from (length all.old) bytes.now }
{
    for (i, word) in all.iter_mut().enumerate() {
        let at = from + 8 * i;
        *word = words::load(&bytes[at..at + 8], 0);
    }
}

// The read of a whole block, with room for its cell words.
fn read_by(sizes: Sizes, bytes: &[u8], cells: &mut [u64], out: &mut [u64]) -> ReadAnswer
    requires { (length bytes.now ≡ size sizes.rows sizes.columns sizes.k) × (length cells.old ≡ sizes.rows) }
    ensures { ReadsWhole sizes.rows sizes.columns sizes.k bytes.now out.old result out.new }
{
    let from = sizes.counter_bytes();
    words_into(bytes, from, cells);
    grid::read(
        sizes.rows,
        sizes.columns,
        sizes.k,
        &cells[..],
        &bytes[..from],
        out,
    )
}

// The read of a whole block. The room is made here and filled where it is used: the compiler would copy an array that a function returns.
pub fn read_whole(sizes: Sizes, bytes: &[u8], out: &mut [u64]) -> ReadAnswer
    requires { length bytes.now ≡ size sizes.rows sizes.columns sizes.k }
    ensures { ReadsWhole sizes.rows sizes.columns sizes.k bytes.now out.old result out.new }
{
    let mut cells = [0u64; LINES];
    read_by(sizes, bytes, &mut cells[..sizes.rows], out)
}
