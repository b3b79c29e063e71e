// Finds the gaps of a formula: rows of words as wide as the flags need, and then the walk.
#![tactic(auto)]

pub mod walk;

ghost use Rattle.std.specs.Prelude.{suc, ◌+◌, ◌*◌, ◌^◌, ◌-◌, ◌≤◌, ◌<◌, length};
ghost use Rattle.notation.specs.Ceilings.{connective_ceiling};
ghost use Rattle.notation.specs.Triplets.{triplet_variable};
ghost use Rattle.truth.specs.clauses.Formulas.{value_of};
ghost use Rattle.gaps.specs.Gaps.{false_from};
ghost use Rattle.gaps.specs.clauses.Rows.{Writes};
ghost use Rattle.rows.specs.clauses.Rows.{word_flags};
ghost use Rattle.search.specs.clauses.Walking.{widest};

use crate::walk::{block, walk};
use gaps::writing::{Found, Place};
use notation::ceilings::{LITERALS, VARIABLES};
use rows::{WORD_FLAGS, flag_rows};
use truth::formula::Formula;

// Most flags whose states are evaluated at once, and the words of a row that hold them.
const MOST_FLAGS: usize = WORD_FLAGS + 5;

const MOST_WORDS: usize = 32;

// Words of the rows of all variables, at four and at most words to a row.
const FOUR_TO_A_ROW: usize = 4 * VARIABLES;

const MOST_TO_A_ROW: usize = MOST_WORDS * VARIABLES;

// What a row holds before it is made is never read; a fill of unequal bytes is a plain loop, where one of equal bytes may
// become a call that is dear for a guard of few flags.
const UNREAD: u64 = 72623859790382856;

// All states at once, in rows of 2^MORE words, which hold the states of so many more flags than a word; WORDS are those of all rows.
#[inline(never)]
fn at_once<const MORE: usize, const WORDS: usize>(
    formula: &Formula,
    start: u64,
    out: &mut [u32],
) -> Found
    requires within { (formula.now.flags ≤ word_flags + MORE) × (start ≤ 2 ^ formula.now.flags) }
    requires room { (MORE ≤ widest) × (triplet_variable (suc connective_ceiling) * 2 ^ MORE ≤ WORDS) × (WORDS < 2 ^ 32) }
    ensures { Writes out.old 0 (false_from (value_of formula.now) start (2 ^ formula.now.flags - start)) result out.new }
{
    let mut rows = [UNREAD; WORDS];
    let width = 1 << MORE;
    flag_rows(&mut rows, formula.flags, width);
    block(
        formula,
        &mut rows,
        width,
        Place {
            base: 0,
            start,
            from: 0,
        },
        out,
    )
}

// More flags: 32 words to a row, so that the last flags, as many as these hold, need no walk. Its rows are most of the stack: a search
// that needs fewer is not to pay for them.
#[inline(never)]
fn wide(formula: &Formula, start: u64, out: &mut [u32]) -> Found
    requires { start ≤ 2 ^ formula.now.flags }
    ensures { Writes out.old 0 (false_from (value_of formula.now) start (2 ^ formula.now.flags - start)) result out.new }
{
    let mut rows = [UNREAD; MOST_TO_A_ROW];
    let mut to = [258u16; LITERALS];
    let low = usize::min(formula.flags, MOST_FLAGS);
    flag_rows(&mut rows, low, MOST_WORDS);
    walk(
        formula,
        low,
        &mut rows,
        MOST_WORDS,
        &mut to,
        Place {
            base: 0,
            start,
            from: 0,
        },
        out,
    )
}

// Writes the states from `start` on in which the formula is false, as many as there is room for.
pub fn search(formula: &Formula, start: u64, out: &mut [u32]) -> Found
    requires { start ≤ 2 ^ formula.now.flags }
    ensures { Writes out.old 0 (false_from (value_of formula.now) start (2 ^ formula.now.flags - start)) result out.new }
{
    if formula.flags <= WORD_FLAGS {
        return at_once::<0, VARIABLES>(formula, start, out);
    }
    if formula.flags <= WORD_FLAGS + 2 {
        return at_once::<2, FOUR_TO_A_ROW>(formula, start, out);
    }
    wide(formula, start, out)
}
