// A transfer by a script, a byte a step: docs/CALLS.md says which calls it makes.
ghost use Rattle.std.specs.Prelude.{◌≡◌, ◌+◌, ◌≤◌, length};
ghost use Rattle.calls.specs.Scripts.{Scripted};
ghost use Rattle.calls.specs.Steps.{IsStep};

use crate::format::GridNumbers;
use fragment_promises::Transfer;
use grid_promises::ReadAnswer;

// A new start with the same numbers, a finish, or a lump of at most so many bytes.
#[derive(Clone, Copy)]
enum Step {
    Start,
    Finish,
    Lump(u8),
}

impl From<u8> for Step {
    ghost from_gives = { IsStep };

    fn from(byte: u8) -> Step {
        match byte {
            254 => Step::Start,
            255 => Step::Finish,
            size => Step::Lump(size),
        }
    }
}

// A transfer on its way: what it holds, and how many of its bytes are used.
#[derive(Drop)]
struct Sending<'a> {
    numbers: GridNumbers,
    bytes: &'a [u8],
    used: usize,
    transfer: Transfer,
    ghost within: { used ≤ length bytes.now },
}

impl<'a> Sending<'a> {
    ghost use Rattle.calls.specs.Sending.{Steps};

    // Makes the step of a byte, and answers its number.
    fn step(&mut self, byte: u8, out: &mut [u64]) -> usize
        ensures { Steps self.old byte out.old result self.new out.new }
    {
        match Step::from(byte) {
            Step::Start => {
                let GridNumbers { rows, columns, k } = self.numbers;
                let s = fragments::start(rows, columns, k);
                self.transfer = s.transfer;
                s.number
            }
            Step::Finish => {
                let a = fragments::finish(self.transfer, out);
                a.number
            }
            Step::Lump(size) => {
                let n = usize::from(size).min(self.bytes.len() - self.used);
                let end = self.used + n;
                let s = fragments::lump(self.transfer, &self.bytes[self.used..end]);
                self.transfer = s.transfer;
                self.used = end;
                s.number
            }
        }
    }
}

// Starts, goes through the script and finishes. The numbers of all steps before the last finish are put into `steps`.
pub fn run(
    numbers: GridNumbers,
    bytes: &[u8],
    script: &[u8],
    out: &mut [u64],
    steps: &mut [u8],
) -> ReadAnswer
    requires { length steps.old ≡ length script.now + 1 }
    ensures { Scripted numbers.rows numbers.columns numbers.k bytes.now script.now out.old result out.new steps.new }
{
    let s = fragments::start(numbers.rows, numbers.columns, numbers.k);
    steps[0] = s.number as u8;
    let mut sending = Sending {
        numbers,
        bytes,
        used: 0,
        transfer: s.transfer,
    };
    for (i, byte) in script.iter().enumerate() {
        let number = sending.step(*byte, out);
        steps[i + 1] = number as u8;
    }
    fragments::finish(sending.transfer, out)
}
