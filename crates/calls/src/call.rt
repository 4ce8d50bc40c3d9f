// The calls: each takes its numbers and buffers, makes the call and puts what its line shows.
// There is a function for each kind, and not one for all: each makes another call, with other arguments, and shows other parts of its answer.
// Each unfolds the table of forms for its proof: from its kind it then follows which numbers and buffers the call has, and how wide they are.
// What a call may change is copied into an array: a buffer has at most 1,024 elements, and so no call takes an allocator.
ghost use Rattle.std.specs.Prelude.{◌≡◌, ◌≤◌, ◌<◌, MatchResult, length};
ghost use Rattle.calls.specs.Kinds.{taken, NoCall};
ghost use Rattle.calls.specs.Shown.{Shown};
ghost use Rattle.calls.specs.Format.{is_cut_short};
ghost use Rattle.calls.specs.Calls.{Printed};

use crate::format::{Call, GridNumbers, MOST_ELEMENTS};
use crate::kind::{Bad, Kind};
use crate::output::Output;
use crate::script;

// A script has no more steps: the first start, and one for each of its bytes.
const MOST_STEPS: usize = MOST_ELEMENTS + 1;

#[tactic(auto, unfolding(crate::specs::Format::table, crate::specs::Format::form_of))]
fn pointer_write(call: Call, out: &mut Output)
    requires { call.kind ≡ Kind.PointerWrite }
    ensures { Shown call.entry out.old out.new }
{
    let mut a = [0u8; MOST_ELEMENTS];
    let mut b = [0u8; MOST_ELEMENTS];
    let n = call.number(0);
    let wanted = call.bytes(0);
    let mask = call.bytes(1);
    let values = call.bytes(2);
    let cells = call.load(3, &mut a);
    let metadata = call.load(4, &mut b);
    let r = pointer::write(n, wanted, mask, values, cells, metadata);
    out.answer(r.number, &[r.active, r.new]);
    out.buffer(cells);
    out.buffer(metadata);
}

#[tactic(auto, unfolding(crate::specs::Format::table, crate::specs::Format::form_of))]
fn pointer_read(call: Call, out: &mut Output)
    requires { call.kind ≡ Kind.PointerRead }
    ensures { Shown call.entry out.old out.new }
{
    let mut a = [0u8; MOST_ELEMENTS];
    let n = call.number(0);
    let cells = call.bytes(0);
    let metadata = call.bytes(1);
    let shown = call.load(2, &mut a);
    let r = pointer::read(n, cells, metadata, shown);
    out.answer(r.number, &[]);
    out.buffer(shown);
}

#[tactic(auto, unfolding(crate::specs::Format::table, crate::specs::Format::form_of))]
fn grid_plan(call: Call, out: &mut Output)
    requires { call.kind ≡ Kind.GridPlan }
    ensures { Shown call.entry out.old out.new }
{
    let mut a = [0u64; MOST_ELEMENTS];
    let mut b = [0u64; MOST_ELEMENTS];
    let mut c = [0u64; MOST_ELEMENTS];
    let mut d = [0u8; MOST_ELEMENTS];
    let GridNumbers { rows, columns, k } = call.grid_numbers();
    let wanted = call.load(0, &mut a);
    let mask = call.load(1, &mut b);
    let values = call.load(2, &mut c);
    let counters = call.load(3, &mut d);
    let r = grid::plan(rows, columns, k, wanted, mask, values, counters);
    out.answer(r.number, &[r.levels, r.faults, r.wrong, r.right]);
    out.buffer(counters);
}

#[tactic(auto, unfolding(crate::specs::Format::table, crate::specs::Format::form_of))]
fn grid_read(call: Call, out: &mut Output)
    requires { call.kind ≡ Kind.GridRead }
    ensures { Shown call.entry out.old out.new }
{
    let mut a = [0u64; MOST_ELEMENTS];
    let mut b = [0u64; MOST_ELEMENTS];
    let GridNumbers { rows, columns, k } = call.grid_numbers();
    let cells = call.load(0, &mut a);
    let counters = call.bytes(1);
    let shown = call.load(2, &mut b);
    let r = grid::read(rows, columns, k, cells, counters, shown);
    out.answer(r.number, &[r.index]);
    out.buffer(shown);
}

#[tactic(auto, unfolding(crate::specs::Format::table, crate::specs::Format::form_of))]
fn grid_store(call: Call, out: &mut Output)
    requires { call.kind ≡ Kind.GridStore }
    ensures { Shown call.entry out.old out.new }
{
    let mut a = [0u64; MOST_ELEMENTS];
    let mut b = [0u64; MOST_ELEMENTS];
    let mut c = [0u64; MOST_ELEMENTS];
    let mut d = [0u64; MOST_ELEMENTS];
    let GridNumbers { rows, columns, k } = call.grid_numbers();
    let wanted = call.load(0, &mut a);
    let mask = call.load(1, &mut b);
    let values = call.load(2, &mut c);
    let counters = call.bytes(3);
    let cells = call.load(4, &mut d);
    let r = grid::store(rows, columns, k, wanted, mask, values, counters, cells);
    let figures = [r.levels, r.faults, r.wrong, r.right, r.index];
    out.answer(r.number, &figures);
    out.buffer(cells);
}

#[tactic(auto, unfolding(crate::specs::Format::table, crate::specs::Format::form_of))]
fn grid_convert(call: Call, out: &mut Output)
    requires { call.kind ≡ Kind.GridConvert }
    ensures { Shown call.entry out.old out.new }
{
    let mut a = [0u8; MOST_ELEMENTS];
    let GridNumbers { rows, columns, k } = call.grid_numbers();
    let target = call.number(3);
    let counters = call.bytes(0);
    let converted = call.load(1, &mut a);
    let r = grid::convert(rows, columns, k, target, counters, converted);
    out.answer(r.number, &[r.index]);
    out.buffer(converted);
}

// The first n bytes of a room. A function of its own, since what is lent of an array keeps its length in a proof only behind a call.
fn front(room: &mut [u8], n: usize) -> &mut [u8]
    requires { n ≤ length room.old }
    ensures { length result.now ≡ n }
{
    &mut room[..n]
}

#[tactic(auto, unfolding(crate::specs::Format::table, crate::specs::Format::form_of))]
fn transfer(call: Call, out: &mut Output)
    requires { call.kind ≡ Kind.Transfer }
    ensures { Shown call.entry out.old out.new }
{
    let mut a = [0u64; MOST_ELEMENTS];
    let mut b = [0u8; MOST_STEPS];
    let numbers = call.grid_numbers();
    let bytes = call.bytes(0);
    let script = call.bytes(1);
    let shown = call.load(2, &mut a);
    let steps = front(&mut b, script.len() + 1);
    let r = script::run(numbers, bytes, script, shown, steps);
    out.answer(r.number, &[r.index]);
    out.buffer(shown);
    out.buffer(steps);
}

// Makes a call, and puts what its line shows.
fn answer(call: Call, out: &mut Output)
    ensures { Shown call.entry out.old out.new }
{
    match call.kind {
        Kind::PointerWrite => pointer_write(call, out),
        Kind::PointerRead => pointer_read(call, out),
        Kind::GridPlan => grid_plan(call, out),
        Kind::GridRead => grid_read(call, out),
        Kind::GridStore => grid_store(call, out),
        Kind::GridConvert => grid_convert(call, out),
        Kind::Transfer => transfer(call, out),
    }
}

// Whether the call at the front of the bytes is cut short: it is not there whole, but might be with bytes that follow.
pub fn is_cut_short(s: &[u8]) -> bool
    ensures { result ≡ is_cut_short s.now }
{
    match Call::read(s) {
        Ok(_) => false,
        Err(why) => why == Bad::CutShort,
    }
}

// Makes the call at the front of the bytes and puts its line, and answers how many bytes it takes, or why there is none.
pub fn call(s: &[u8], out: &mut Output) -> Result<usize, Bad>
    requires { 0 < length s.now }
    ensures printed { Printed s.now (taken result) out.old.room.items out.old.end out.new.room.items out.new.end }
    ensures why { MatchResult result (λ n. 0 < n) (NoCall s.now) }
{
    let call = Call::read(s)?;
    answer(call, out);
    out.end_line();
    Ok(call.end)
}
