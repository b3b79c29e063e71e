// Evaluates the guard of a text in a state.
#![tactic(auto)]

ghost use Rattle.std.specs.Prelude.{◌≡◌};
ghost use Rattle.notation.specs.Reading.{reading};
ghost use Rattle.evaluate.specs.Evaluated.{evaluated};

use notation::ceilings::{FLAGS, TRIPLETS_ROOM};
use notation::codes::Code;
use notation::refusal::{Reason, Refusal};
use reading::parse::parse;
use truth::formula::Formula;
use truth::states::is_state;

// The value of the guard of a text in a state, or why the text or the state is refused.
pub fn evaluate(text: &[u8], state: u64) -> Result<bool, Refusal>
    ensures { result ≡ evaluated (reading text.now) state }
{
    let mut codes = [Code::NONE; FLAGS];
    let mut triplets = [0u16; TRIPLETS_ROOM];
    let guard = parse(text, &mut codes, &mut triplets)?;
    if !is_state(state, guard.flags) {
        return Err(Refusal {
            reason: Reason::NoState,
            place: 0,
        });
    }
    let formula = Formula {
        triplets: &triplets,
        count: guard.count,
        root: guard.root,
        flags: guard.flags,
    };
    let value = formula.value(state);
    Ok(value)
}
