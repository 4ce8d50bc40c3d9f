// The rows of a block, as a plan and a store are lent them.
ghost use Rattle.std.specs.Prelude.{◌≡◌, ◌^◌, ◌≤◌, length};
ghost use Rattle.bits.specs.Bits.{Below};

// A word of data, of mask and of values for each row, of at most 64. That the mask has words is said too, since nothing else says it of a slice in a field.
#[derive(Drop)]
pub struct Rows<'a> {
    pub data: &'a [u64],
    pub mask: &'a [u64],
    pub values: &'a [u64],
    pub ghost few: { length «data».now ≤ 64 },
    pub ghost masks: { length mask.now ≡ length «data».now },
    pub ghost stuck_at: { length values.now ≡ length «data».now },
    pub ghost fit: { Below (2 ^ 64) mask.now },
}
