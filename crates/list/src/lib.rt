// The service list: the gaps of a text, in ascending order.
#![tactic(auto)]

ghost use Rattle.list.specs.Listed.{Lists};

use gaps::writing::Found;
use notation::ceilings::{FLAGS, TRIPLETS_ROOM};
use notation::codes::Code;
use notation::refusal::{Reason, Refusal};
use reading::parse::parse;
use search::search;
use truth::formula::Formula;
use truth::states::is_state;

// Writes the gaps of a text from `start` on, ascending, as many as there is room for; or tells why the text or the start is refused.
pub fn list(text: &[u8], start: u64, out: &mut [u32]) -> Result<Found, Refusal>
    ensures { Lists text.now start out.old result out.new }
{
    let mut codes = [Code::NONE; FLAGS];
    let mut triplets = [0u16; TRIPLETS_ROOM];
    let guard = parse(text, &mut codes, &mut triplets)?;
    if !is_state(start, guard.flags) {
        return Err(Refusal {
            reason: Reason::NoState,
            place: 0,
        });
    }
    let formula = Formula {
        triplets: &triplets,
        count: guard.count,
        root: guard.root,
        flags: guard.flags,
    };
    let found = search(&formula, start, out);
    Ok(found)
}
