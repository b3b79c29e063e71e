// The service check: the verdict on a text at a depth.
ghost use Rattle.guard_check.specs.Check.{CheckSays};

use crate::answer::answer;
use notation::ceilings::{FLAGS, TEXT, TRIPLETS_ROOM};
use notation::codes::Code;
use notation::refusal::{Reason, Refusal};
use reading::parse::parse;
use saturation::verdict::Verdict;
use truth::formula::Formula;

// The ceiling of the depth.
pub const DEPTH: u64 = 24;

// A text over its ceiling is refused first, and the depth before anything that stands in the text.
pub fn check(text: &[u8], depth: u64) -> Result<Verdict, Refusal>
    ensures { CheckSays text.now depth result }
{
    if TEXT < text.len() {
        return Err(Refusal {
            reason: Reason::LongText,
            place: TEXT,
        });
    }
    if DEPTH < depth {
        return Err(Refusal {
            reason: Reason::HighDepth,
            place: 0,
        });
    }
    let mut codes = [Code::NONE; FLAGS];
    let mut triplets = [0u16; TRIPLETS_ROOM];
    let guard = parse(text, &mut codes, &mut triplets)?;
    let formula = Formula {
        triplets: &triplets,
        count: guard.count,
        root: guard.root,
        flags: guard.flags,
    };
    let verdict = answer(&formula, depth);
    Ok(verdict)
}
