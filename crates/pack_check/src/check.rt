// The service: the verdict on a line pack at a depth.
ghost use Rattle.questions.specs.clauses.Laying.{spans_room};
ghost use Rattle.std.specs.Prelude.{◌≡◌, ◌*◌, length};
ghost use Rattle.notation.specs.Ceilings.{connective_ceiling};
ghost use Rattle.pack_check.specs.PackCheck.{PackChecked};
ghost use Rattle.pack_check.specs.clauses.Asking.{Stands, LineAnswered};

use crate::asking::{ask_pairs, ask_whole};
use crate::verdict::LineVerdict;
use building::spans::GuardSpan;
use guard_check::check::DEPTH;
use notation::ceilings::{FLAGS, TRIPLETS_ROOM};
use notation::codes::Code;
use notation::refusal::{Reason, Refusal, fault};
use packs::read::read_pack;
use questions::GUARDS;

// Both answers for the line whose guards stand in the pool.
fn answered(
    pool: &[u16; TRIPLETS_ROOM],
    spans: &[GuardSpan; GUARDS],
    flags: usize,
    variants: usize,
    depth: u64,
) -> LineVerdict
    requires stands { Stands pool.now spans.now flags variants }
    requires pool_len { (length pool.now ≡ 3 * connective_ceiling) × (length spans.now ≡ spans_room) }
    ensures { LineAnswered pool.now spans.now flags variants depth result }
{
    let mut out = [0u16; TRIPLETS_ROOM];
    let whole = ask_whole(pool, spans, flags, variants, depth, &mut out);
    let overlap = ask_pairs(pool, spans, flags, variants, depth, &mut out);
    LineVerdict { whole, overlap }
}

// The depth is refused before anything that stands in the pack.
pub fn check_pack(pack: &[u8], depth: u64) -> Result<LineVerdict, Refusal>
    ensures { PackChecked pack.now depth result }
{
    if DEPTH < depth {
        return Err(fault(Reason::HighDepth, 0));
    }
    let mut codes = [Code::NONE; FLAGS];
    let mut pool = [0u16; TRIPLETS_ROOM];
    let mut spans = [GuardSpan::NONE; GUARDS];
    let line = read_pack(pack, &mut codes, &mut pool, &mut spans)?;
    let verdict = answered(&pool, &spans, line.flags, line.variants, depth);
    Ok(verdict)
}
