// The service name: where the code of a flag first stands in the text.
ghost use Rattle.std.specs.Prelude.{◌≡◌};
ghost use Rattle.notation.specs.Reading.{reading};
ghost use Rattle.reading.specs.Service.{name_answer, part_of};
ghost use Rattle.reading.specs.clauses.Parsing.{Spans, named_in};

use crate::parse::parse;
use notation::ceilings::{FLAGS, TRIPLETS_ROOM};
use notation::codes::Code;
use notation::refusal::{Reason, Refusal};

// The part of a text that is a flag's code, by its first byte and length.
#[derive(Clone, Copy)]
pub struct Stretch {
    pub start: usize,
    pub len: usize,
}

// No flag has this number.
const UNNAMED: Refusal = Refusal {
    reason: Reason::NoFlag,
    place: 0,
};

// The code of flag i, counted from 1, in the table of codes.
fn named_at(codes: &[Code], flags: usize, i: u64) -> Result<Stretch, Refusal>
    requires { Spans codes.now flags }
    ensures { result ≡ named_in codes.now flags i }
{
    if i < 1 {
        return Err(UNNAMED);
    }
    if (flags as u64) < i {
        return Err(UNNAMED);
    }
    let place = (i - 1) as usize;
    let code = codes[place];
    Ok(Stretch {
        start: code.start,
        len: code.next - code.start,
    })
}

// Where flag i of a text's guard first stands.
pub fn name(text: &[u8], i: u64) -> Result<Stretch, Refusal>
    ensures { result ≡ name_answer (reading text.now) i }
{
    let mut codes = [Code::NONE; FLAGS];
    let mut out = [0u16; TRIPLETS_ROOM];
    let guard = parse(text, &mut codes, &mut out)?;
    named_at(&codes, guard.flags, i)
}

// The part itself, out of the very text lent; empty where name refused.
pub fn part<E: Drop>(text: &[u8], named: Result<Stretch, E>) -> &[u8]
    ensures { result.now ≡ part_of text.now named }
{
    let Ok(Stretch { start, len }) = named else {
        return &text[0..0];
    };
    if text.len() < start {
        return &text[0..0];
    }
    if text.len() - start < len {
        return &text[0..0];
    }
    &text[start..start + len]
}
