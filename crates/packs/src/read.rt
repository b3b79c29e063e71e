// Reads a pack from its first field to its end.
ghost use Rattle.std.specs.Prelude.{◌≡◌};
ghost use Rattle.packs.specs.Pack.{pack_read};
ghost use Rattle.packs.specs.clauses.Taken.{Rooms};
ghost use Rattle.packs.specs.clauses.Says.{Whole, PackSays};

use crate::due::Due;
use crate::pool::note;
use crate::steps::{Progress, step_on};
use building::spans::GuardSpan;
use notation::ceilings::{CONNECTIVES, FLAGS, TRIPLETS_ROOM};
use notation::codes::Code;
use notation::refusal::{Reason, Refusal, fault};
use questions::GUARDS;

// How many flags and variants a line has.
#[derive(Clone, Copy)]
pub struct Line {
    pub flags: usize,
    pub variants: usize,
}

// The line that has been read, where its questions keep the ceiling: the largest has the connectives of all guards, and one for each variant.
fn closed(
    file: &[u8],
    p: Progress,
    codes: &[Code; FLAGS],
    pool: &[u16; TRIPLETS_ROOM],
    spans: &[GuardSpan; GUARDS],
) -> Result<Line, Refusal>
    requires { Whole file.now codes.now pool.now spans.now p }
    ensures { PackSays file.now (pack_read file.now) result codes.now pool.now spans.now }
{
    if CONNECTIVES < p.total + p.variants {
        return Err(fault(Reason::ManyConnectives, p.at));
    }
    Ok(Line {
        flags: p.flags,
        variants: p.variants,
    })
}

// The line of a pack in lent tables, or its refusal. A refusal may have changed them.
pub fn read_pack(
    file: &[u8],
    codes: &mut [Code; FLAGS],
    pool: &mut [u16; TRIPLETS_ROOM],
    spans: &mut [GuardSpan; GUARDS],
) -> Result<Line, Refusal>
    requires { Rooms codes.old pool.old spans.old }
    ensures { PackSays file.now (pack_read file.now) result codes.new pool.new spans.new }
{
    note(spans, 0, 0, 0, 0);
    let mut p = Progress {
        at: 0,
        due: Due::Id,
        flags: 0,
        variants: 0,
        total: 0,
    };
    while let Some(next) = step_on(file, p, codes, pool, spans)? {
        p = next;
    }
    closed(file, p, codes, pool, spans)
}
