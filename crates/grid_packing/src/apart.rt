// The lowest bits of a word, spread: a second word's bits fit between them. In a block with few faults most of them are 0.
ghost use Rattle.std.specs.Prelude.{◌≡◌};
ghost use Rattle.bits.specs.Bits.{word};
ghost use Rattle.grid_packing.specs.Steps.{spaced};

// The 32 lowest bits at the even places, with 0 between.
pub fn apart(v: u64) -> u64
    ensures { result ≡ word 64 (spaced 2 v) }
{
    let a = 0xffff_ffff & v;
    if a == 0 {
        return 0;
    }
    let b = 0x0000_ffff_0000_ffff & (a | (a << 16));
    let c = 0x00ff_00ff_00ff_00ff & (b | (b << 8));
    let d = 0x0f0f_0f0f_0f0f_0f0f & (c | (c << 4));
    let e = 0x3333_3333_3333_3333 & (d | (d << 2));
    0x5555_5555_5555_5555 & (e | (e << 1))
}

// The 16 lowest bits at every third place, with 0 between. It has other masks and a step fewer than `apart`: no argument of one function says both as plainly.
pub fn apart_by_three(v: u64) -> u64
    ensures { result ≡ word 48 (spaced 3 v) }
{
    let a = 0xffff & v;
    if a == 0 {
        return 0;
    }
    let b = 0x0000_ff00_00ff & (a | (a << 16));
    let c = 0x00f0_0f00_f00f & (b | (b << 8));
    let d = 0x0c30_c30c_30c3 & (c | (c << 4));
    0x2492_4924_9249 & (d | (d << 2))
}
