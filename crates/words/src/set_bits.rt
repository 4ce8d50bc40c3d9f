// The bits of a word that are 1, one after the other.
ghost use Rattle.std.specs.Prelude.{◌≡◌};
ghost use Rattle.std.specs.Iterator.{at_most};
ghost use Rattle.words.specs.SetBits.{NextPlace};

// The places of those that are still to come: the 1s of `rest`.
#[derive(Drop)]
pub struct Places {
    pub rest: u64,
}

// The places of the bits of a word that are 1, the lowest first. Only these are visited.
pub fn ones(word: u64) -> Places
    ensures { result.rest ≡ word }
{
    Places { rest: word }
}

impl Iterator for Places {
    type Item = usize;

    ghost next_gives = { λ s next t. NextPlace s.rest next t.rest };

    ghost remaining = { λ s. at_most s.rest };

    fn next(&mut self) -> Option<usize> {
        if self.rest == 0 {
            return None;
        }
        let lowest = self.rest.trailing_zeros() as usize;
        self.rest &= self.rest - 1; // without its lowest 1
        Some(lowest)
    }
}
