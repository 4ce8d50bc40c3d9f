// The stuck cells of rows, as bits of words.
ghost use Rattle.std.specs.Prelude.{◌≡◌, not, ◌+◌, ◌*◌, ◌^◌, ◌<◌, ◌≤◌, eqb, length, get_or};
ghost use Rattle.bits.specs.Bits.{num, word};
ghost use Rattle.grid_levels.specs.Steps.{IsKind};

use crate::rows::Rows;

// The stuck cells of a row that are wrong for the data, or the right ones. `wrong` is a Boolean: `IsKind` computes with it.
pub fn stuck_as(wrong: bool, want: u64, mask: u64, value: u64) -> u64
    ensures { IsKind wrong want mask value result }
{
    let d = mask & (want ^ value);
    if wrong { d } else { mask ^ d }
}

impl Rows<'_> {
    // The stuck cells of row `i`, wrong or right.
    pub(crate) fn stuck_as(&self, wrong: bool, i: usize) -> u64
        requires { i < length self.now.data.now }
        ensures { let r = self.now in IsKind wrong (get_or r.data.now i 0) (get_or r.mask.now i 0) (get_or r.values.now i 0) result }
    {
        stuck_as(wrong, self.data[i], self.mask[i], self.values[i])
    }
}

// The set of line `i` alone, or of nothing.
pub fn mark_if(t: bool, i: usize) -> u64
    requires { i < 64 }
    ensures { result ≡ num t * 2 ^ i }
{
    u64::from(t) << i
}

// Which of the four words from word `i` on are not 0, as bits.
fn bits_of_four(words: &[u64], i: usize) -> u64
    requires { (i + 4 ≤ length words.now) × (length words.now ≤ 64) }
    ensures { result ≡ word 4 (λ k. not (eqb (get_or words.now (i + k) 0) 0)) }
{
    mark_if(words[i + 3] != 0, 3)
        | (mark_if(words[i + 2] != 0, 2)
            | (mark_if(words[i + 1] != 0, 1) | mark_if(words[i] != 0, 0)))
}

// The rows that hold a stuck cell, from the last to the first: one by one down to a multiple of eight, then eight at a time.
pub fn stuck_rows(mask: &[u64]) -> u64
    requires { length mask.now ≤ 64 }
    ensures { result ≡ word (length mask.now) (λ i. not (eqb (get_or mask.now i 0) 0)) }
{
    let eights = mask.len() / 8;
    let mut rows = 0u64;
    for i in (8 * eights..mask.len()).rev() {
        rows = rows * 2 + mark_if(mask[i] != 0, 0);
    }
    for e in (0..eights).rev() {
        rows = rows * 256 + (bits_of_four(mask, 8 * e + 4) * 16 + bits_of_four(mask, 8 * e));
    }
    rows
}
