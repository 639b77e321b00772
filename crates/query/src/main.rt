// Answers questions about shapes. Each line of standard input is a question: a word, and after a bar each field. It is
// answered by one line of standard output, in order; a line that is no question is answered with the reason. A line has
// at most 65,536 characters, and its fields hold at most 16,384 numbers together.
#![tactic(auto)]

mod ask;
mod readings;
mod replies;
mod table;
mod walks;

use std::env::FillError;
use std::io;
use std::io::{Read, Write};
use std::rt::Env;
use table::Entry;
use text::fields::Fields;
use text::lines::Lines;
use text::numbers::Numbers;
use text::reasons::Reason;
use text::standard::Failure;
use text::{fields, output, words};

fn main(rt: HostRuntime) {
    if has_arguments(&rt) {
        let usage =
            "usage: query < FILE (answers one question a line; README.md lists the questions)";
        let _ = rt.eprintln(usage);
        return;
    }
    if let Err(failure) = run(&rt) {
        let _ = rt.eprintln(failure);
    }
}

// Whether the program is given arguments besides its own name.
fn has_arguments(rt: &impl Env) -> bool {
    !matches!(rt.arg(1, &mut [0u8; 0]), Err(FillError::NotPresent))
}

// Answers the lines of standard input on standard output.
fn run(rt: &(impl Input + Print)) -> Result<(), Failure> {
    let mut lines = Lines::new(rt.reader());
    let mut out = output::gather_inline(io::writer(rt));
    answer_all(&mut lines, &mut out)
}

// Answers every line. A proved loop has to end, so this one counts its turns, up to a number that no run uses up.
fn answer_all(lines: &mut Lines<impl Read + Drop>, out: &mut impl Write) -> Result<(), Failure> {
    let mut numbers = Numbers::new();
    for _ in 0..u64::MAX {
        if !lines.advance(out)? {
            break;
        }
        answer(out, lines.text(), &mut numbers).map_err(Failure::Write)?;
    }
    out.flush().map_err(Failure::Write)
}

// Adds the answer of a line.
fn answer(
    out: &mut impl Write,
    line: Result<&[u8], Reason>,
    numbers: &mut Numbers,
) -> io::Result<()> {
    match read(line, numbers) {
        Ok(asked) => ask::ask(out, asked.entry, &asked.fields)?,
        Err(reason) => write!(out, "{reason}")?,
    }
    out.write_all(b"\n")
}

// What a line asks.
#[derive(Clone, Copy)]
struct Asked<'a> {
    entry: Entry,
    fields: Fields<'a>,
}

// Reads a question, or says why the line is none.
fn read<'a>(line: Result<&'a [u8], Reason>, numbers: &'a mut Numbers) -> Result<Asked<'a>, Reason> {
    let line = line?;
    let word = words::trimmed(words::piece(line, 0));
    let entry = table::look_up(word).ok_or(Reason::UnknownWord)?;
    let fields = fields::read(line, entry.kinds, numbers)?;
    Ok(Asked { entry, fields })
}
