// The bytes that were read and are still to be used.
ghost use Rattle.std.specs.Prelude.{◌≡◌, true, ◌≤◌, ◌<◌, ◌-◌, length, vec_len, is_ok, IfOk};

use anyhow::Context;
use std::alloc::{AllocError, Global};
use std::io::{Read, Stdin};

// So many bytes of input are held at a time.
const ROOM: usize = 65536;

// The bytes from at to end of the room are still to be used, and the input may have more. `State`, of which the theorem about the whole run speaks, has these
// places and `more`.
#[derive(Drop)]
pub struct Input {
    pub room: Vec<u8>,
    pub more: bool,
    pub at: usize,
    pub end: usize,
    ghost started: { at ≤ end },
    ghost inside: { end ≤ vec_len room },
    // its length never changes, and a call fits
    ghost wide: { vec_len room ≡ 65536 },
}

// Reads once. Where the part that is read into is not empty, 0 is the end of the input.
fn read_some(stdin: &mut Stdin, into: &mut [u8]) -> anyhow::Result<usize>
    ensures { IfOk result (λ n. n ≤ length into.new) }
{
    stdin.read(into).context("standard input")
}

impl Input {
    ghost use Rattle.calls.specs.Stream.{left, Fetched};
    ghost use Rattle.calls.specs.Input.{held};

    pub fn new(alloc: Global) -> Result<Input, AllocError>
        ensures { IfOk result (λ input. (input.more ≡ true) × (input.at ≡ 0) × (input.end ≡ 0)) }
    {
        let room = vec![in alloc; 0u8; ROOM]?;
        Ok(Input {
            room,
            more: true,
            at: 0,
            end: 0,
        })
    }

    pub fn left(&self) -> &[u8]
        ensures { result.now ≡ left self.now.room.items self.now.at self.now.end }
    {
        &self.room[self.at..self.end]
    }

    // Moves what is left to the front and reads behind it.
    pub fn fetch(&mut self, stdin: &mut Stdin) -> anyhow::Result<()>
        requires { self.old.end - self.old.at < vec_len self.old.room }
        ensures { Fetched (held true self.old) self.old.room.items (held (is_ok result) self.new) self.new.room.items }
    {
        let n = self.end - self.at;
        self.room.copy_within(self.at..self.end, 0);
        self.more = false;
        self.at = 0;
        self.end = n;
        let came = read_some(stdin, &mut self.room[n..])?;
        self.more = came > 0;
        self.end += came;
        Ok(())
    }
}
