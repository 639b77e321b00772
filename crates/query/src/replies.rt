// The one printer of replies, without their newlines.
use reply::Reply;
use std::io;
use std::io::Write;
use text::output;

// How an answer is written.
#[derive(Clone, Copy)]
pub enum Form {
    // `ok`, the values, and the last of them as a floor.
    Numbers,
    // Likewise, and after a bar as many corners as the first value says.
    Shape,
    // `ok`, the first value as a word, the others and the floor.
    Relation,
    YesNo,
    Direction,
    Clearance,
    // Likewise, after one name, or after two.
    Nearest,
    Gap,
    Excess,
    Passage,
    Contact,
    // `ok` and the value as a word. The log that an addition leaves is added by the caller.
    Addition,
    // `ok` and the values in hexadecimal digits. A refusal carries the part of the corner.
    Bits,
    // `ok` and the floor of a walk begun.
    Begun,
    // How many corners a call wrote, and they.
    Call,
}

// Adds a reply. The corners that an answer wrote are at the front of the list.
pub fn add(out: &mut impl Write, told: &Reply, form: Form, list: &[i32]) -> io::Result<()> {
    if told.number != 0 {
        return refusal(out, told, form);
    }
    let [first, second, third, ..] = told.values;
    head(out, form, first, second, third)?;
    match form {
        Form::Addition | Form::Bits => Ok(()),
        Form::Call => output::numbers(out, front(list, first)),
        Form::Numbers => values(out, told, 0),
        Form::Shape => {
            values(out, told, 0)?;
            out.write_all(b" |")?;
            output::numbers(out, front(list, first))
        }
        Form::Relation | Form::YesNo | Form::Direction | Form::Clearance => values(out, told, 1),
        Form::Excess | Form::Passage | Form::Contact => values(out, told, 1),
        Form::Nearest => values(out, told, 2),
        Form::Gap | Form::Begun => values(out, told, 3),
    }
}

// Adds `ok` and the word of the first value, if it is one, or of the one after the names; of a call the first value
// alone.
fn head(out: &mut impl Write, form: Form, first: u64, second: u64, third: u64) -> io::Result<()> {
    match form {
        Form::Relation => write!(out, "ok {}", relation(first)),
        Form::YesNo => write!(out, "ok {}", either(first, "no", "yes")),
        Form::Direction => write!(out, "{}", either(first, "ok none", "ok")),
        Form::Clearance => write!(out, "ok {}", clearance(first)),
        Form::Nearest => write!(out, "ok {first} {}", clearance(second)),
        Form::Gap => write!(out, "ok {first} {second} {}", clearance(third)),
        Form::Excess => write!(out, "ok {}", excess(first)),
        Form::Passage => write!(out, "{}", either(first, "ok blocked", "ok")),
        Form::Contact => write!(out, "{}", either(first, "ok never", "ok")),
        Form::Addition => write!(out, "ok {}", either(first, "cut", "finished")),
        Form::Bits => write!(out, "ok 0x{first:016x} 0x{second:016x}"),
        Form::Call => write!(out, "{first}"),
        Form::Numbers | Form::Shape | Form::Begun => write!(out, "ok"),
    }
}

// Returns how two shapes relate to each other.
fn relation(value: u64) -> &'static str {
    match value {
        0 => "apart",
        1 => "touching",
        _ => "overlapping",
    }
}

// Returns one text for 0 and another for 1.
fn either(value: u64, none: &'static str, one: &'static str) -> &'static str {
    if value == 0 { none } else { one }
}

// Returns of what the nearest points are, corners and edges; 0 if the shapes are not apart.
fn clearance(value: u64) -> &'static str {
    match value {
        0 => "0",
        1 => "cc",
        2 => "ce",
        _ => "ec",
    }
}

// Returns of what the furthest corner is nearest to, a corner or an edge; inside if the new shape reaches nowhere
// further.
fn excess(value: u64) -> &'static str {
    match value {
        0 => "inside",
        1 => "cc",
        _ => "ce",
    }
}

// Adds the values from a position on, and the last of them as the floor. A value is signed, and given as its 64 bits.
fn values(out: &mut impl Write, told: &Reply, from: usize) -> io::Result<()> {
    let count = told.count.min(9) as usize;
    if let Some((floor, values)) = told.values.get(from..count).unwrap_or(&[]).split_last() {
        for value in values {
            write!(out, " {}", value.cast_signed())?;
        }
        write!(out, " @{floor}")?;
    }
    Ok(())
}

// Returns the first corners of a list, two numbers each; all if it has fewer.
fn front(list: &[i32], count: u64) -> &[i32] {
    let corners = (list.len() / 2).min(count as usize);
    &list[..2 * corners]
}

// Adds a refusal: its number, and what it carries.
fn refusal(out: &mut impl Write, told: &Reply, form: Form) -> io::Result<()> {
    let [first, edge, corner] = told.carried;
    write!(out, "no {}", told.number)?;
    match (form, told.count) {
        (_, 0) => Ok(()),
        (Form::Bits, _) => write!(out, " part {}", if first == 1 { "x" } else { "y" }),
        _ if told.number == 15 => write!(out, " place {first}"),
        (_, 1) => write!(out, " shape {first}"),
        _ => write!(out, " shape {first} edge {edge} corner {corner}"),
    }
}
