// Reads a guard into lent tables: the codes of its flags, and its triplets as numbers.
ghost use Rattle.std.specs.Prelude.{◌≡◌, ◌*◌, ◌≤◌, length};
ghost use Rattle.notation.specs.Ceilings.{flag_ceiling, connective_ceiling};
ghost use Rattle.notation.specs.clauses.Codes.{codes_room, flags_in, InText};
ghost use Rattle.notation.specs.Reading.{reading, reading_from};
ghost use Rattle.levels.specs.clauses.Levels.{part};
ghost use Rattle.reading.specs.clauses.Parsing.{ParseSays, ended_as};

use levels::same;
use notation::ceilings::{FLAGS, TEXT, TRIPLETS_ROOM};
use notation::codes::Code;
use notation::place::{Kind, Place};
use notation::refusal::{Reason, Refusal};
use notation::tokens::token_at;
use operands::waiting::Stack;

// The numbers of a guard's flags and triplets, and its root literal.
#[derive(Clone, Copy)]
pub struct Guard {
    pub flags: usize,
    pub count: usize,
    pub root: u16,
}

// A guard, if the text ends after it.
fn ended(at: &Place, root: u16) -> Result<Guard, Refusal>
    ensures { result ≡ ended_as (part root at.now) }
{
    match at.token.kind {
        Kind::End => Ok(Guard {
            flags: at.flags,
            count: at.count,
            root,
        }),
        _ => Err(Refusal {
            reason: Reason::OutOfPlace,
            place: at.token.start,
        }),
    }
}

// The guard that stands from a place to the end of a text, or its refusal: the first `flags` codes of the table have been seen before. A
// refusal may have changed the lent tables.
pub fn parse_from(
    text: &[u8],
    from: usize,
    flags: usize,
    codes: &mut [Code; FLAGS],
    out: &mut [u16; TRIPLETS_ROOM],
) -> Result<Guard, Refusal>
    requires codes_len { (length codes.old ≡ codes_room) × (length out.old ≡ 3 * connective_ceiling) }
    requires from_in_bounds { (from ≤ length text.now) × (flags ≤ flag_ceiling) }
    requires in_text { InText text.now codes.old flags }
    ensures { ParseSays text.now
        (reading_from text.now from (flags_in text.now codes.old flags)) result
        codes.new out.new }
{
    if TEXT < text.len() - from {
        return Err(Refusal {
            reason: Reason::LongText,
            place: from + TEXT,
        });
    }
    let mut at = Place::before(from, flags);
    let first = token_at(text, &mut at);
    let Ok(()) = first else {
        return Err(at.refusal);
    };
    let mut wait = Stack::none();
    let whole = same(text, &mut at, 0, codes, out, &mut wait);
    let Ok(root) = whole else {
        return Err(at.refusal);
    };
    ended(&at, root)
}

// The guard of a text, or its refusal. A refusal may have changed the lent tables.
pub fn parse(
    text: &[u8],
    codes: &mut [Code; FLAGS],
    out: &mut [u16; TRIPLETS_ROOM],
) -> Result<Guard, Refusal>
    requires { (length codes.old ≡ codes_room) × (length out.old ≡ 3 * connective_ceiling) }
    ensures { ParseSays text.now (reading text.now) result codes.new out.new }
{
    parse_from(text, 0, 0, codes, out)
}
