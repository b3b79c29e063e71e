// Prints a text and what a service answers for it, one line each. What cannot be printed is passed over: what must come out is compared.
use evaluate::evaluate;
use gaps::writing::Found;
use guard_check::check::check;
use list::list;
use notation::ceilings::TRIPLETS_ROOM;
use notation::refusal::Refusal;
use reading::name::{Stretch, name, part};
use reading::parse::Guard;
use reading::read::read;
use saturation::verdict::Verdict;
use std::fmt;

// What a service answers where it does not refuse.
trait Show {
    fn show<W: fmt::Write>(&self, f: &mut fmt::Formatter<W>) -> fmt::Result;
}

impl Show for Guard {
    fn show<W: fmt::Write>(&self, f: &mut fmt::Formatter<W>) -> fmt::Result {
        write!(f, "{} {} {}", self.flags, self.count, self.root)
    }
}

impl Show for Stretch {
    fn show<W: fmt::Write>(&self, f: &mut fmt::Formatter<W>) -> fmt::Result {
        write!(f, "{} {}", self.start, self.len)
    }
}

impl Show for bool {
    fn show<W: fmt::Write>(&self, f: &mut fmt::Formatter<W>) -> fmt::Result {
        write!(f, "{}", *self)
    }
}

impl Show for Found {
    fn show<W: fmt::Write>(&self, f: &mut fmt::Formatter<W>) -> fmt::Result {
        match self {
            Found::Done(written) => write!(f, "{written} done"),
            Found::More { written, next } => write!(f, "{written} more {next}"),
        }
    }
}

impl Show for Verdict {
    fn show<W: fmt::Write>(&self, f: &mut fmt::Formatter<W>) -> fmt::Result {
        match self {
            Verdict::Covered => write!(f, "covered"),
            Verdict::Gap(state) => write!(f, "gap {state}"),
            Verdict::Undecided => write!(f, "undecided"),
        }
    }
}

// An answer as it is printed.
#[derive(Drop)]
struct Shown<T>(Result<T, Refusal>);

impl<T: Show> fmt::Display for Shown<T> {
    fn fmt<W: fmt::Write>(&self, f: &mut fmt::Formatter<W>) -> fmt::Result {
        match &self.0 {
            Ok(answer) => answer.show(f),
            Err(refusal) => write!(f, "refused {} {}", refusal.reason.number(), refusal.place),
        }
    }
}

// What read answers with as much room as any guard needs.
pub fn reading(rt: &impl Print, text: &str) {
    reading_of(rt, text, text.as_bytes());
}

// The same with words for a text that does not print well, or is too long for a line.
pub fn reading_of(rt: &impl Print, words: &str, text: &[u8]) {
    let mut room = [0u16; TRIPLETS_ROOM];
    let answer = Shown(read(text, &mut room));
    let _ = println!(rt; "read {words} {answer}");
}

// What read answers, and what a lent room of sevens then holds.
pub fn reading_into(rt: &impl Print, text: &str, room: &mut [u16]) {
    let answer = Shown(read(text.as_bytes(), room));
    let _ = print!(rt; "read {text} {answer} :");
    for number in &*room {
        let _ = print!(rt; " {number}");
    }
    let _ = println!(rt; "");
}

// What name answers for flag i, and the part of the text in brackets.
pub fn naming(rt: &impl Print, text: &str, i: u64) {
    let named = name(text.as_bytes(), i);
    let bytes = part(text.as_bytes(), named);
    let code = str::from_utf8(bytes).unwrap_or("no text");
    let answer = Shown(named);
    let _ = println!(rt; "name {i} {text} {answer} [{code}]");
}

// What evaluate answers in a state.
pub fn evaluating(rt: &impl Print, text: &str, state: u64) {
    let answer = Shown(evaluate(text.as_bytes(), state));
    let _ = println!(rt; "evaluate {state} {text} {answer}");
}

// What list answers from a start on, and what a lent slice of nines then holds.
pub fn listing(rt: &impl Print, text: &str, start: u64, out: &mut [u32]) {
    let answer = Shown(list(text.as_bytes(), start, out));
    let _ = print!(rt; "list {start} {text} {answer} :");
    for state in &*out {
        let _ = print!(rt; " {state}");
    }
    let _ = println!(rt; "");
}

// What check answers at a depth.
pub fn checking(rt: &impl Print, text: &str, depth: u64) {
    let answer = Shown(check(text.as_bytes(), depth));
    let _ = println!(rt; "check {depth} {text} {answer}");
}
