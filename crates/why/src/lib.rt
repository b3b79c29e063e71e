// The service why: which flags of a gap force it, none to spare.
#![tactic(auto)]

ghost use Rattle.std.specs.Prelude.{◌≡◌, ◌^◌, ◌≤◌, ◌<◌};
ghost use Rattle.notation.specs.Reading.{reading};
ghost use Rattle.truth.specs.clauses.Formulas.{value_of};
ghost use Rattle.truth.specs.clauses.Words.{word_bits};
ghost use Rattle.freeing.specs.clauses.Some.{keeps};
ghost use Rattle.why.specs.Kept.{Forces};
ghost use Rattle.why.specs.Explained.{Explains};
ghost use Rattle.why.specs.clauses.Keeping.{none_found, Decides, Turned, Keeping};

use freeing::some::fix_some;
use gaps::writing::Found;
use notation::ceilings::{FLAGS, LITERALS, TRIPLETS_ROOM};
use notation::codes::Code;
use notation::refusal::{Reason, Refusal, fault};
use reading::parse::parse;
use search::search;
use truth::formula::Formula;
use truth::states::is_state;

// Whether nothing was found.
fn is_none(found: Found) -> bool
    ensures { result ≡ none_found found }
{
    matches!(found, Found::Done(_))
}

// Whether the formula is false in every state that agrees with `state` on the flags of `keep`: what is left of it with these
// flags fixed is searched for a true state, with no room, so that the search ends at the first.
fn forced(formula: &Formula, keep: u64, state: u64) -> bool
    ensures { Decides result (Forces formula.now.flags (value_of formula.now) state (keeps formula.now.flags keep)) }
{
    let mut to = [258u16; LITERALS];
    let mut ys = [258u16; TRIPLETS_ROOM];
    let left = fix_some(formula, keep, state, &mut to, &mut ys);
    let freed = Formula {
        triplets: &ys,
        count: left.count,
        root: left.root,
        flags: left.flags,
    };
    let turned = freed.negated();
    let mut room = [0u32; 0];
    let found = search(&turned, 0, &mut room);
    is_none(found)
}

// The turn of the flag at a place of the mask: it is dropped where the others still kept force a gap.
fn turn(formula: &Formula, state: u64, keep: u64, place: usize) -> u64
    requires { (place < word_bits) × (2 ^ place ≤ keep) }
    ensures { Turned formula.now.flags (value_of formula.now) state keep place result }
{
    let less = keep - (1 << place);
    if forced(formula, less, state) {
        return less;
    }
    keep
}

// The flags kept of a gap: gone through in order.
fn kept_flags(formula: &Formula, state: u64) -> u64
    ensures { Keeping formula.now.flags (value_of formula.now) state formula.now.flags result }
{
    let mut keep = (1 << formula.flags) - 1;
    for i in 0..formula.flags {
        keep = turn(formula, state, keep, formula.flags - (i + 1));
    }
    keep
}

// The flags of a gap that are kept, where each is dropped in its turn if the others still kept force a gap; or why there is no answer. They
// stand as a state has its flags: the first is the highest bit.
pub fn why(text: &[u8], state: u64) -> Result<u64, Refusal>
    ensures { Explains (reading text.now) state result }
{
    let mut codes = [Code::NONE; FLAGS];
    let mut triplets = [0u16; TRIPLETS_ROOM];
    let guard = parse(text, &mut codes, &mut triplets)?;
    if !is_state(state, guard.flags) {
        return Err(fault(Reason::NoState, 0));
    }
    let formula = Formula {
        triplets: &triplets,
        count: guard.count,
        root: guard.root,
        flags: guard.flags,
    };
    if formula.value(state) {
        return Err(fault(Reason::NoGap, 0));
    }
    let keep = kept_flags(&formula, state);
    Ok(keep)
}
