// Counters as sets of lines and as planes: definitions (specs/) and laws (proofs/), and how many sets and lines there is room for. No code.
#![tactic(auto)]

use refusals::Refusal;

// The most rows, and the most columns, that a block has.
pub const LINES: usize = 64;
// The sets of rows, and of columns, that there is room for: a larger K changes no shape.
pub const LEVELS: usize = 8;

// What bytes hold: what was judged of them, and the sets of the rows' counters and of the columns'. Set s has the lines whose counter is above s. The sets
// stand beside the judgment, and not under its `Ok`: they are handed out refused or not.
#[derive(Drop)]
pub struct Counters {
    pub judged: Result<(), Refusal>,
    pub rows: [u64; LEVELS],
    pub columns: [u64; LEVELS],
}

// Bit 0 and bit 1 of 64 counters: bit i of a word is that of counter i.
#[derive(Clone, Copy)]
pub struct Planes {
    pub low: u64,
    pub high: u64,
}

// The same with bit 2. Apart from the others: most counters have at most two bits, and two words are passed in registers.
#[derive(Clone, Copy)]
pub struct Threes {
    pub planes: Planes,
    pub top: u64,
}
