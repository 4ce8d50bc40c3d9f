// What a write is lent of its row: the data, where the cells are stuck, and at what values.
ghost use Rattle.std.specs.Prelude.{◌≡◌, ℕ, ◌<◌, length};
ghost use Rattle.bits.specs.Bits.{has};
ghost use Rattle.pointer.specs.Steps.{unserved_in};

// A bit for each cell in each: three slices, as C lends them.
#[derive(Drop)]
pub struct Wanted<'a> {
    pub data: &'a [u8],
    pub mask: &'a [u8],
    pub values: &'a [u8],
    ghost wants: { length «data».now ≡ 64 },
    ghost masks: { length mask.now ≡ 64 },
    ghost holds: { length values.now ≡ 64 },
}

impl<'a> Wanted<'a> {
    // What is unserved in byte i, where its byte of served positions is given.
    pub fn unserved(&self, i: usize, served: u8) -> u8
        requires { i < 64 }
        ensures { (k : ℕ) → has result k ≡ unserved_in self.now.«data».now self.now.mask.now self.now.values.now served i k }
    {
        let wrong = self.mask[i] & (self.data[i] ^ self.values[i]);
        wrong ^ (wrong & served)
    }
}
