// A call, read from the bytes of the input: whether it is there, and its numbers and buffers.
ghost use Rattle.std.specs.Prelude.{◌≡◌, List, [], ◌∷◌, ℕ, map, ◌+◌, ◌*◌, ◌≤◌, ◌<◌, MatchResult, length, get_or};
ghost use Rattle.std.proofs.Common.{rules, sym};
ghost use Rattle.std.proofs.lemmas.List.{map-id};
ghost use Rattle.bits.specs.Bits.{list, number_at};
ghost use Rattle.calls.specs.Format.{call_number, place_of, form_of, form_end, call_end, width, buffer_of};
ghost use Rattle.calls.specs.Kinds.{tag_of, After, Found, NoCall};

use crate::kind::{Bad, Kind};
use words::{load, number_at};

// A buffer of a call has no more elements.
pub const MOST_ELEMENTS: usize = 1024;

// What a buffer of a call holds: bytes or words. In the input an element takes WIDTH bytes.
pub trait Element: Copy {
    const WIDTH: usize;

    ghost WIDTH: { ℕ };

    ghost number: { Self → ℕ };

    ghost numbers: { List Self → List ℕ };

    // The element at a place.
    fn read(bytes: &[u8], at: usize) -> Self
        ensures { number result ≡ number_at bytes.now at WIDTH };

    fn number(self) -> u64
        ensures { result ≡ number self };

    ghost each_number: { (xs : List Self) → numbers xs ≡ map number xs };

    ghost narrow: { (0 < WIDTH) × (WIDTH ≤ 8) };
}

impl Element for u8 {
    const WIDTH: usize = 1;

    ghost WIDTH = { 1 };

    ghost number = { λ x. x };

    ghost numbers = { λ xs. xs };

    fn read(bytes: &[u8], at: usize) -> u8 {
        bytes.get(at).copied().unwrap_or(0)
    }

    fn number(self) -> u64 {
        u64::from(self)
    }

    ghost each_number = { λ xs. sym (map-id xs) };

    ghost narrow = { Prim.search rules };
}

impl Element for u64 {
    const WIDTH: usize = 8;

    ghost WIDTH = { 8 };

    ghost number = { λ x. x };

    ghost numbers = { λ xs. xs };

    fn read(bytes: &[u8], at: usize) -> u64 {
        load(bytes, at)
    }

    fn number(self) -> u64 {
        self
    }

    ghost each_number = { λ xs. sym (map-id xs) };

    ghost narrow = { Prim.search rules };
}

// Where the buffer that starts at `at` ends, its elements width bytes each, or why it is not there.
fn after_buffer(s: &[u8], at: usize, width: usize) -> Result<usize, Bad>
    requires inside { (0 < at) × (at ≤ length s.now) }
    requires narrow { width ≤ 8 }
    ensures { After s.now at width result }
{
    let left = s.len() - at;
    if left < 2 {
        return Err(Bad::CutShort);
    }
    let n = number_at(s, at, 2) as usize;
    if MOST_ELEMENTS < n {
        return Err(Bad::Length);
    }
    let size = 2 + width * n;
    if left < size {
        return Err(Bad::CutShort);
    }
    Ok(at + size)
}

// Where buffer i of a call of this kind starts, or the call ends where i is their number; or why the call is not there up to that place.
fn place(s: &[u8], kind: Kind, i: usize) -> Result<usize, Bad>
    requires { i ≤ 5 }
    ensures { Found s.now (form_of (tag_of kind)) i result }
{
    let form = kind.form();
    let mut at = 1 + 8 * form.numbers;
    if s.len() < at {
        return Err(Bad::CutShort);
    }
    for width in &form.widths[..i] {
        at = after_buffer(s, at, *width)?;
    }
    Ok(at)
}

// The three numbers that a call on a grid has first: its rows, its columns and its K. They may be any numbers, since the call judges them.
#[derive(Clone, Copy)]
pub struct GridNumbers {
    pub rows: usize,
    pub columns: usize,
    pub k: usize,
}

// A call that is there whole at the front of the bytes, and where it ends.
#[derive(Clone, Copy)]
pub struct Call<'a> {
    pub bytes: &'a [u8],
    pub kind: Kind,
    pub end: usize,
    ghost ends: { end ≡ form_end bytes.now (form_of (tag_of kind)) },
    ghost whole: { 0 < end },
}

impl<'a> Call<'a> {
    // The call at the front of the bytes, or why there is none.
    pub fn read(bytes: &'a [u8]) -> Result<Call<'a>, Bad>
        ensures { MatchResult result (λ call. (call.bytes.now ≡ bytes.now) × (tag_of call.kind ≡ get_or bytes.now 0 0)) (NoCall bytes.now) }
    {
        let Some(tag) = bytes.first() else {
            return Err(Bad::CutShort);
        };
        let kind = Kind::try_from(*tag)?;
        let form = kind.form();
        let end = place(bytes, kind, form.buffers)?;
        Ok(Call { bytes, kind, end })
    }

    // Its number i, from 0 on.
    pub fn number(self, i: usize) -> usize
        requires { i ≤ 3 }
        ensures { result ≡ call_number self.entry.bytes.now i }
    {
        number_at(self.bytes, 1 + 8 * i, 8) as usize
    }

    // Its first three numbers.
    pub fn grid_numbers(self) -> GridNumbers
        ensures { result.rows ∷ result.columns ∷ result.k ∷ [] ≡ list 3 (call_number self.entry.bytes.now) }
    {
        GridNumbers {
            rows: self.number(0),
            columns: self.number(1),
            k: self.number(2),
        }
    }

    // Where its buffer i starts.
    fn place(self, i: usize) -> usize
        requires { 0 < width (tag_of self.kind) i }
        ensures { result ≡ place_of self.entry.bytes.now (form_of (tag_of self.entry.kind)) i }
    {
        place(self.bytes, self.kind, i).unwrap()
    }

    // Its buffer i, which is one of bytes.
    pub fn bytes(self, i: usize) -> &'a [u8]
        requires { width (tag_of self.kind) i ≡ 1 }
        ensures { result.now ≡ buffer_of self.entry.bytes.now (tag_of self.entry.kind) i }
    {
        let at = self.place(i);
        let first = at + 2;
        let end = first + number_at(self.bytes, at, 2) as usize;
        &self.bytes[first..end]
    }

    // Its buffer i, copied into a room, so that what the call does may change it.
    pub fn load<'b, T: Element>(self, i: usize, room: &'b mut [T]) -> &'b mut [T]
        requires width { width (tag_of self.kind) i ≡ T.WIDTH }
        requires in_bounds { 1024 ≤ length room.old }
        ensures { T.numbers result.now ≡ buffer_of self.entry.bytes.now (tag_of self.entry.kind) i }
    {
        let at = self.place(i);
        let n = number_at(self.bytes, at, 2) as usize;
        let loaded = &mut room[..n];
        for (j, element) in loaded.iter_mut().enumerate() {
            *element = T::read(self.bytes, at + 2 + T::WIDTH * j);
        }
        loaded
    }
}
