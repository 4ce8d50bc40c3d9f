// Counters of three bits, which lie over the ends of bytes: their planes from bytes.
ghost use Rattle.std.specs.Prelude.{◌≡◌, Bool, ℕ, ◌+◌, ◌*◌};
ghost use Rattle.bits.specs.Bits.{has, word};
ghost use Rattle.grid_counters.specs.Steps.{FromThirds, FromFour};

use crate::read::Read;
use grid_sets::{Planes, Threes};
use words::load;

// The 16 bits at every third place of 48, side by side. In a block with few faults most of them are 0. It has other masks and a step fewer than `seconds`: no
// argument of one function says both as plainly.
fn thirds(v: u64) -> u64
    ensures { result ≡ word 16 (λ i. has v (3 * i)) }
{
    let a = 0x2492_4924_9249 & v;
    if a == 0 {
        return 0;
    }
    let b = 0x0c30_c30c_30c3 & (a | (a >> 2));
    let c = 0x00f0_0f00_f00f & (b | (b >> 4));
    let d = 0x0000_ff00_00ff & (c | (c >> 8));
    0xffff & (d | (d >> 16))
}

// The bits at every third place of two words, as `plane` puts together those at the even places.
fn thirds_of_two(first: u64, second: u64) -> u64
    ensures { (f : ℕ → Bool) → FromThirds first f → FromThirds second (λ i. f (16 + i)) → result ≡ word 32 f }
{
    (thirds(second) << 16) | thirds(first)
}

// One bit of 64 counters, which is at every third place of four words, from the first place on.
fn third_plane(a: u64, b: u64, c: u64, d: u64) -> u64
    ensures { FromFour a b c d result }
{
    (thirds_of_two(c, d) << 32) | thirds_of_two(a, b)
}

impl Read for Threes {
    ghost takes = { λ width. width ≡ 3 };

    // 16 counters are 6 bytes, and no load goes past the last. In a block without faults all are 0.
    fn read(bytes: &[u8], _width: usize, first: usize) -> Threes {
        let q = first / 8 * 3;
        let a = load(bytes, q);
        let b = load(bytes, q + 6);
        let c = load(bytes, q + 12);
        let d = load(bytes, q + 16) >> 16;
        if (a | b) | (c | d) == 0 {
            return Threes {
                planes: Planes { low: 0, high: 0 },
                top: 0,
            };
        }
        Threes {
            planes: Planes {
                low: third_plane(a, b, c, d),
                high: third_plane(a >> 1, b >> 1, c >> 1, d >> 1),
            },
            top: third_plane(a >> 2, b >> 2, c >> 2, d >> 2),
        }
    }
}
