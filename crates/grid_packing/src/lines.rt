// How many rows, or how many columns, a block has.
ghost use Rattle.std.specs.Prelude.{◌≤◌};

// At most 64, so that a word has a bit for each.
#[derive(Clone, Copy)]
pub struct Lines {
    pub count: usize,
    ghost few: { count ≤ 64 },
}
