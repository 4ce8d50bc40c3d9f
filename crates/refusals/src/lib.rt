// The refusals of documents 01 and 02, by name, and the numbers that calls answer for them.
#![tactic(auto)]

ghost use Rattle.std.specs.Prelude.{◌≡◌};
ghost use Rattle.refusals.specs.Numbers.{number, index, number_of, index_of};

// The number of an accepted call.
pub const ACCEPTED: usize = 0;

// Why a call is refused.
#[derive(Clone, Copy, Debug, PartialEq, Eq)]
pub enum Refusal {
    // n, the rows, the columns or K lie outside their range.
    OutOfRange,
    // A lent buffer is not exactly as long as it should be.
    WrongLength,
    // A grid word that is read has a bit past the last column, or a spare bit of read metadata is 1.
    BitPastEnd,
    // Pointer metadata is not well formed.
    Malformed,
    // A counter that is read is above K: the first of them has this index.
    AboveK(usize),
    // Two active entries hold the same pointer.
    SamePointer,
    // A pointer row has no entry left.
    NoEntryLeft,
    // The faults of a grid cannot be masked for this data.
    Unmaskable,
    // A block that arrives in lumps was finished before all its bytes were there.
    ShortBlock,
    // A lump would have made a block longer than it is.
    LongBlock,
    // By the counters that a store is lent, a stuck cell would read wrong.
    Misread,
}

impl Refusal {
    // The number that a call answers. No `From`: one to a number would lose the index, and the answers are types of crates that have no code.
    pub fn number(self) -> usize
        ensures { result ≡ number self }
    {
        match self {
            Refusal::OutOfRange => 1,
            Refusal::WrongLength => 2,
            Refusal::BitPastEnd => 3,
            Refusal::Malformed => 4,
            Refusal::AboveK(_) => 4,
            Refusal::SamePointer => 5,
            Refusal::NoEntryLeft => 6,
            Refusal::Unmaskable => 7,
            Refusal::ShortBlock => 8,
            Refusal::LongBlock => 9,
            Refusal::Misread => 13,
        }
    }

    // The index that a call answers with it: that of the first counter above K, and else 0.
    pub fn index(self) -> usize
        ensures { result ≡ index self }
    {
        match self {
            Refusal::AboveK(first) => first,
            _ => 0,
        }
    }
}

// The number of a call that was accepted or refused.
pub fn number_of<T: Drop>(judged: Result<T, Refusal>) -> usize
    ensures { result ≡ number_of judged }
{
    match judged {
        Ok(_) => ACCEPTED,
        Err(refusal) => refusal.number(),
    }
}

// The index that goes with it.
pub fn index_of<T: Drop>(judged: Result<T, Refusal>) -> usize
    ensures { result ≡ index_of judged }
{
    match judged {
        Ok(_) => 0,
        Err(refusal) => refusal.index(),
    }
}
