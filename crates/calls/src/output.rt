// What is to be written: the words of lines, each but the first behind a space.
ghost use Rattle.std.specs.Prelude.{◌≡◌, ◌≤◌, [], ◌∷◌, ◌++◌, ◌*◌, vec_len, IfOk};

use crate::format::Element;
use crate::kind::Bad;
use std::alloc::{AllocError, Global};
use wire::text::{put, put_decimal, put_hex};

// So many bytes of output are held at a time.
const ROOM: usize = 65536;

// Text, in a room from its front on, as much of it as there is room for; and where it ends.
// No String and no `write!`: `Put`, which wire promises and the lines' theorems speak of, says what becomes of the whole room.
// A `write!` says nothing of a room that is full.
#[derive(Drop)]
pub struct Output {
    pub room: Vec<u8>,
    pub end: usize,
    ghost inside: { end ≤ vec_len room },
    // its length never changes, and no line is longer
    ghost wide: { vec_len room ≡ 65536 },
}

impl Output {
    ghost use Rattle.wire.specs.Text.{decimal, hex_of};
    ghost use Rattle.calls.specs.Text.{dash, buffer_text, behind, line};
    ghost use Rattle.calls.specs.Bad.{reason_text, bad_call};
    ghost use Rattle.calls.specs.Kinds.{told};
    ghost use Rattle.calls.specs.Output.{Adds};

    pub fn new(alloc: Global) -> Result<Output, AllocError>
        ensures { IfOk result (λ output. output.end ≡ 0) }
    {
        let room = vec![in alloc; 0u8; ROOM]?;
        Ok(Output { room, end: 0 })
    }

    // Text as it is.
    fn text(&mut self, text: &[u8])
        ensures { Adds text.now self.old self.new }
    {
        self.end = put(&mut self.room, self.end, text);
    }

    fn number(&mut self, x: usize)
        ensures { Adds (decimal x) self.old self.new }
    {
        self.end = put_decimal(&mut self.room, self.end, x as u64);
    }

    // The last n digits of a number to the base 16.
    fn digits(&mut self, n: usize, x: u64)
        requires { n ≤ 16 }
        ensures { Adds (hex_of n x) self.old self.new }
    {
        self.end = put_hex(&mut self.room, self.end, n, x);
    }

    // The number of an answer, at the front of a line, and its other figures.
    pub fn answer(&mut self, number: usize, figures: &[usize])
        ensures { Adds (line number figures.now []) self.old self.new }
    {
        self.number(number);
        for x in figures {
            self.text(b" ");
            self.number(*x);
        }
    }

    // A buffer: two digits for each byte of an element, or a sign where it has none.
    pub fn buffer<T: Element>(&mut self, elements: &[T])
        ensures { Adds (behind (buffer_text (2 * T.WIDTH) (T.numbers elements.now))) self.old self.new }
    {
        self.text(b" ");
        if elements.is_empty() {
            return self.text(b"-");
        }
        for element in elements {
            self.digits(2 * T::WIDTH, element.number());
        }
    }

    pub fn end_line(&mut self)
        ensures { Adds (10 ∷ []) self.old self.new }
    {
        self.text(b"\n");
    }

    #[tactic(auto, unfolding(crate::specs::Bad::reason_text))]
    fn reason(&mut self, why: Bad)
        ensures { Adds (reason_text (told why)) self.old self.new }
    {
        match why {
            Bad::Tag => self.text(b"its tag"),
            Bad::Length => self.text(b"a length"),
            Bad::CutShort => self.text(b"cut short"),
        }
    }

    // The whole line of a bad call: its number, the offset of its first byte, and why it is none.
    // The three are no struct: they come together only here, where the program ends.
    pub fn bad_call(&mut self, number: usize, offset: usize, why: Bad)
        ensures { Adds (bad_call number offset (told why)) self.old self.new }
    {
        self.text(b"bad call ");
        self.number(number);
        self.text(b" at byte ");
        self.number(offset);
        self.text(b": ");
        self.reason(why);
        self.end_line();
    }
}
