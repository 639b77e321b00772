// One arm for each question: it asks the library, and `replies` prints what it is told.
use crate::replies::Form;
use crate::table::{Entry, OnLog, OnOne, OnPair, Question};
use crate::{readings, replies, walks};
use arrayvec::ArrayVec;
use log_questions::books;
use pair_questions::{changes, reaches, separators};
use polygon::limits::SHAPE_NUMBERS;
use reply::Reply;
use shape_questions::{boxing, rings};
use std::io;
use std::io::Write;
use text::fields::Fields;
use text::output;

// A line has at most 65,536 characters, and a byte of a log two of them.
const LOG: usize = 32768;

// Asks the question of a line, and adds its answer, without a newline.
pub fn ask(out: &mut impl Write, entry: Entry, fields: &Fields) -> io::Result<()> {
    let mut list = [0i32; SHAPE_NUMBERS];
    let told = match entry.question {
        Question::One(question) => told_of_one(question, fields, &mut list),
        Question::Pair(question) => told_of_pair(question, fields, &mut list),
        Question::Parts => return walks::parts(out, entry.form, fields),
        Question::Log(question) => return ask_of_log(out, question, entry.form, fields),
    };
    replies::add(out, &told, entry.form, &list)
}

// Asks a question on a log. The log that an addition leaves follows the answer, after a bar.
fn ask_of_log(
    out: &mut impl Write,
    question: OnLog,
    form: Form,
    fields: &Fields,
) -> io::Result<()> {
    let mut log = ArrayVec::<u8, LOG>::new();
    let mut run = ArrayVec::<u8, LOG>::new();
    fields.each[0].log(&mut log);
    fields.each[1].log(&mut run);
    let mut list = [0i32; SHAPE_NUMBERS];
    let told = told_of_log(
        question,
        fields,
        log.as_mut_slice(),
        run.as_mut_slice(),
        &mut list,
    );
    replies::add(out, &told, form, &list)?;
    match question {
        OnLog::Add if told.number == 0 => add_log(out, log.as_slice()),
        OnLog::Pack if told.number == 0 => add_log(out, run.as_slice()),
        _ => Ok(()),
    }
}

// Adds a log after a bar.
fn add_log(out: &mut impl Write, log: &[u8]) -> io::Result<()> {
    out.write_all(b" | ")?;
    output::bytes(out, log)
}

// Returns as many numbers of a list as a room says, at most all.
fn lend(list: &mut [i32], room: usize) -> &mut [i32] {
    let end = room.min(list.len());
    &mut list[..end]
}

// Asks the library about one shape. What is written goes to the front of the list, if the room suffices.
fn told_of_one(question: OnOne, fields: &Fields, list: &mut [i32]) -> Reply {
    let [first, second, _, _] = &fields.each;
    let (a, f) = (first.numbers, first.floor());
    let out = lend(list, second.room());
    match question {
        OnOne::Judge => reply::of(shape_questions::judge(a, f)),
        OnOne::Furthest => {
            let (u, v) = second.direction();
            reply::of(shape_questions::furthest(a, f, u, v))
        }
        OnOne::Mirror => reply::of(shape_questions::mirror(a, f, out)),
        OnOne::Sweep => reply::of(shape_questions::sweep(a, f, out)),
        OnOne::Ring => reply::of(rings::ring(a, f, out)),
        OnOne::Length => reply::of(shape_questions::length(a, f)),
        OnOne::Area => reply::of(shape_questions::area(a, f)),
        OnOne::Width => reply::of(shape_questions::width(a, f)),
        OnOne::Box => reply::of(boxing::least_box(a, f)),
        OnOne::Tablet => readings::tablet(first, second),
    }
}

// Asks the library about two shapes, likewise.
fn told_of_pair(question: OnPair, fields: &Fields, list: &mut [i32]) -> Reply {
    let [first, second, third, fourth] = &fields.each;
    let (a, f) = (first.numbers, first.floor());
    let (b, g) = (second.numbers, second.floor());
    let (u, v) = third.direction();
    match question {
        OnPair::Sum => reply::of(pair_questions::sum(a, f, b, g, lend(list, third.room()))),
        OnPair::Part => {
            let out = lend(list, fourth.count(1));
            reply::of(walks::part(first, second, third, fourth, out))
        }
        OnPair::Merge => {
            let out = lend(list, third.room());
            reply::of(pair_questions::merge(a, f, b, g, out))
        }
        OnPair::Grow => {
            let out = lend(list, third.room());
            reply::of(pair_questions::grow(a, f, b, g, out))
        }
        OnPair::Relation => reply::of(pair_questions::relation(a, f, b, g)),
        OnPair::Inside => reply::of(pair_questions::inside(a, f, b, g)),
        OnPair::Offer => reply::of(separators::offer(a, f, b, g, u, v)),
        OnPair::Find => reply::of(separators::find(a, f, b, g)),
        OnPair::Clearance => reply::of(pair_questions::clearance(a, f, b, g)),
        OnPair::Greatest => reply::of(reaches::greatest(a, f, b, g)),
        OnPair::Excess => reply::of(changes::excess(a, f, b, g)),
        OnPair::Tangents => reply::of(pair_questions::tangents(a, f, b, g)),
        OnPair::Passage => {
            let (c, h) = (third.numbers, third.floor());
            reply::of(pair_questions::passage(a, f, b, g, c, h))
        }
        OnPair::Contact => {
            let (s, t) = fourth.direction();
            reply::of(drive_questions::contact(a, f, b, g, u, v, s, t))
        }
    }
}

// Asks the library about a log, likewise. A packing writes the second run of bytes.
fn told_of_log(
    question: OnLog,
    fields: &Fields,
    log: &mut [u8],
    run: &mut [u8],
    list: &mut [i32],
) -> Reply {
    let [_, second, third, fourth] = &fields.each;
    let (b, g) = (second.numbers, second.floor());
    let out = lend(list, third.room());
    match question {
        OnLog::Read => reply::of(log_questions::log_read(log, second.name(), out)),
        OnLog::Add => {
            let (c, h) = (third.numbers, third.floor());
            let added = log_questions::log_add(log, second.name(), h, c, fourth.room());
            reply::of_addition(added)
        }
        OnLog::Entry => reply::of(books::log_entry(log, second.count(0), out)),
        OnLog::Nearest => {
            let near = books::log_nearest(log, b, g, third.but() as usize);
            reply::of(near)
        }
        OnLog::Gap => reply::of(books::log_gap(log, b, g)),
        OnLog::Contact => {
            let (u, v) = third.direction();
            let (s, t) = fourth.direction();
            reply::of(drive_questions::log_contact(log, b, g, u, v, s, t))
        }
        OnLog::Pack => reply::of_addition(books::log_pack(log, run, third.but(), fourth.room())),
    }
}
