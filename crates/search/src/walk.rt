// Walks over the states: fixes one flag after the other, and evaluates what is left on rows of words.
ghost use Rattle.std.specs.Prelude.{◌≡◌, ℕ, suc, ◌+◌, ◌*◌, ◌-◌, ◌^◌, ◌≤◌, ◌<◌, length};
ghost use Rattle.notation.specs.Ceilings.{connective_ceiling};
ghost use Rattle.notation.specs.Triplets.{triplet_variable};
ghost use Rattle.ground.specs.Bits.{bit};
ghost use Rattle.truth.specs.clauses.Formulas.{value_of};
ghost use Rattle.search.specs.clauses.Walking.{Rows, Stretch, Walked};

use fixing::fix_first;
use gaps::writing::{Found, Place, write_row};
use notation::ceilings::TRIPLETS_ROOM;
use rows::evaluate;
use truth::formula::Formula;

// All states of the formula's flags at once.
pub fn block(
    formula: &Formula,
    rows: &mut [u64],
    width: usize,
    place: Place,
    out: &mut [u32],
) -> Found
    requires { Rows formula.now.flags width rows.old × Stretch formula.now.flags width place.base × (place.from ≤ length out.old) }
    ensures { Walked (value_of formula.now) place.start place.base formula.now.flags formula.now.flags width place.from out.old result out.new rows.new }
{
    evaluate(formula.triplets, formula.count, formula.flags, rows, width);
    write_row(rows, formula.root, formula.flags, width, place, out)
}

// One side of the first flag: where what is left of the formula is not simply true, walks over it.
#[cycle(side_walk)]
fn side(
    formula: &Formula,
    b: bool,
    low: usize,
    rows: &mut [u64],
    width: usize,
    to: &mut [u16],
    place: Place,
    out: &mut [u32],
) -> Found
    requires rows { Rows low width rows.old × Stretch (formula.now.flags - 1) width place.base × (place.from ≤ length out.old) }
    requires low_lt_flags { (low < formula.now.flags) × (2 * triplet_variable (suc connective_ceiling) ≤ length to.old)
        × ((s : ℕ) → place.base ≤ s → s < place.base + 2 ^ (formula.now.flags - 1) → bit s (formula.now.flags - 1) ≡ b) }
    ensures { Walked (value_of formula.now) place.start place.base (formula.now.flags - 1) low width place.from out.old result out.new rows.new }
{
    let last = place.base + ((1 << (formula.flags - 1)) - 1);
    if last < place.start {
        return Found::Done(place.from);
    }
    let mut ys = [258u16; TRIPLETS_ROOM];
    let left = fix_first(formula, b, to, &mut ys);
    if left.root == 0 {
        return Found::Done(place.from);
    }
    let rest = Formula {
        triplets: &ys,
        count: left.count,
        root: left.root,
        flags: left.flags,
    };
    walk(&rest, low, rows, width, to, place, out)
}

// Both sides of the first flag, the false one first; where few flags are left, all states at once.
#[cycle(side_walk)]
pub fn walk(
    formula: &Formula,
    low: usize,
    rows: &mut [u64],
    width: usize,
    to: &mut [u16],
    place: Place,
    out: &mut [u32],
) -> Found
    requires rows { Rows low width rows.old × Stretch formula.now.flags width place.base × (place.from ≤ length out.old) }
    requires low_le_flags { (low ≤ formula.now.flags) × (2 * triplet_variable (suc connective_ceiling) ≤ length to.old) }
    ensures { Walked (value_of formula.now) place.start place.base formula.now.flags low width place.from out.old result out.new rows.new }
{
    if formula.flags == low {
        return block(formula, rows, width, place, out);
    }
    let half = 1 << (formula.flags - 1);
    let found = side(formula, false, low, rows, width, to, place, out);
    let Found::Done(k) = found else {
        return found;
    };
    let upper = Place {
        base: place.base + half,
        from: k,
        ..place
    };
    side(formula, true, low, rows, width, to, upper, out)
}
