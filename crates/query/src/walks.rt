// The questions on a sum in parts: calls from the beginning on, and one call from any state of a walk.
use crate::replies;
use crate::replies::Form;
use answers::Answer;
use part_questions::answer::Part;
use part_questions::walk;
use part_questions::walk::Walk;
use polygon::limits::SHAPE_NUMBERS;
use std::io;
use std::io::Write;
use text::fields::{Field, Fields};

// Begins a sum, and makes its calls from there on: adds what each answers, after a bar. Of each call the numbers are
// how many corners it may write, and the room. The next is given the walk last handed back.
pub fn parts(out: &mut impl Write, form: Form, fields: &Fields) -> io::Result<()> {
    let [a, b, calls, _] = &fields.each;
    let begun = walk::begin(a.numbers, a.floor(), b.numbers, b.floor());
    replies::add(out, &reply::of(begun), form, &[])?;
    let Ok(begun) = begun else {
        return Ok(());
    };
    let mut walk = begun.answer;
    for call in calls.numbers.chunks_exact(2) {
        if let [k, room] = call {
            let room = room.unsigned_abs() as usize;
            walk = next(out, walk, a, b, k.unsigned_abs() as usize, room)?;
        }
    }
    Ok(())
}

// Makes one call more, and returns the walk handed back, or the same if the call is refused.
fn next(
    out: &mut impl Write,
    walk: Walk,
    a: &Field,
    b: &Field,
    k: usize,
    room: usize,
) -> io::Result<Walk> {
    let mut list = [0i32; SHAPE_NUMBERS];
    let lent = &mut list[..room.min(SHAPE_NUMBERS)];
    let part = walk.part(a.numbers, a.floor(), b.numbers, b.floor(), k, lent);
    out.write_all(b" | ")?;
    replies::add(out, &reply::of(part), Form::Call, &list)?;
    Ok(part.map_or(walk, |part| part.answer.walk))
}

// Makes one call from the state of a walk.
pub fn part(a: &Field, b: &Field, state: &Field, call: &Field, out: &mut [i32]) -> Answer<Part> {
    let walk = Walk {
        first: state.count(0),
        second: state.count(1),
        over: state.count(2) == 1,
    };
    walk.part(
        a.numbers,
        a.floor(),
        b.numbers,
        b.floor(),
        call.count(0),
        out,
    )
}
