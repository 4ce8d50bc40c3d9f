// Counters of one or two bits: their planes from bytes. Bit q of every counter makes a word, a plane.
ghost use Rattle.std.specs.Prelude.{◌≡◌, Bool, ℕ, ◌+◌, ◌*◌, ◌≤◌, ◌<◌};
ghost use Rattle.bits.specs.Bits.{has, word};

use crate::read::Read;
use grid_sets::Planes;
use words::load;

// The 32 bits at the even places, side by side. In a block with few faults most words are 0.
fn seconds(v: u64) -> u64
    ensures { result ≡ word 32 (λ i. has v (2 * i)) }
{
    if v == 0 {
        return 0;
    }
    let a = 0x5555_5555_5555_5555 & v;
    let b = 0x3333_3333_3333_3333 & (a | (a >> 1));
    let c = 0x0f0f_0f0f_0f0f_0f0f & (b | (b >> 2));
    let d = 0x00ff_00ff_00ff_00ff & (c | (c >> 4));
    let e = 0x0000_ffff_0000_ffff & (d | (d >> 8));
    0xffff_ffff & (e | (e >> 16))
}

// One bit of 64 counters of two bits, whose lower one is at the even places of two words. `thirds_of_two` has this shape too: one function of both would take a
// function and a shift, and say less.
fn plane(first: u64, second: u64) -> u64
    ensures { (f : ℕ → Bool) → ((i : ℕ) → i < 32 → has first (2 * i) ≡ f i) → ((i : ℕ) → i < 32 → has second (2 * i) ≡ f (32 + i)) → result ≡ word 64 f }
{
    (seconds(second) << 32) | seconds(first)
}

// Counters of one or two bits. Apart from those of three: most blocks have narrow counters, and these need no third word.
impl Read for Planes {
    ghost takes = { λ width. (0 < width) × (width ≤ 2) };

    fn read(bytes: &[u8], width: usize, first: usize) -> Planes {
        if width == 1 {
            return Planes {
                low: load(bytes, first / 8),
                high: 0,
            };
        }
        let a = load(bytes, first / 4);
        let b = load(bytes, first / 4 + 8);
        Planes {
            low: plane(a, b),
            high: plane(a >> 1, b >> 1),
        }
    }
}
