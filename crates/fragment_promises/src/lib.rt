// What is handed from call to call where a grid block arrives in lumps. Its meaning and what the calls promise is in specs/, their code in the crate fragments.
#![tactic(auto)]

// The longest block: 48 bytes of counters, and 64 words of 8 bytes.
pub const LONGEST: usize = 560;

// A block on its way: what its start was told, how many of its bytes were taken, and these bytes first. More bytes taken than the block has says that a lump was
// refused: C lends this record as it is, and has no enum for it. So every value of it has a meaning, also one that no call made.
#[repr(C)]
#[derive(Clone, Copy)]
pub struct Transfer {
    pub rows: usize,
    pub columns: usize,
    pub k: usize,
    pub taken: usize,
    pub bytes: [u8; LONGEST],
}

// How many bytes of its block a transfer still lacks: 0 or the number of the refusal, and the bytes. C is answered it.
#[repr(C)]
#[derive(Drop)]
pub struct MissingAnswer {
    pub number: usize,
    pub bytes: usize,
}
