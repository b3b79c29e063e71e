// Puts the questions of a line whose guards stand in a pool: each is laid into one lent table, over the one before it.
ghost use Rattle.std.specs.Prelude.{◌≡◌, ◌≤◌, ◌<◌};
ghost use Rattle.questions.specs.clauses.Laying.{Rooms};
ghost use Rattle.pack_check.specs.clauses.Asking.{is_open, Stands, WholeAnswered, PairAnswered, RowAnswered, PairsAnswered};

use crate::verdict::Overlap;
use building::spans::GuardSpan;
use guard_check::answer::answer;
use notation::ceilings::TRIPLETS_ROOM;
use questions::{GUARDS, lay_pair, lay_whole};
use saturation::verdict::Verdict;
use truth::formula::Formula;

// Whether an answer is any other than covered.
fn is_open(verdict: Verdict) -> bool
    ensures { result ≡ is_open verdict }
{
    !matches!(verdict, Verdict::Covered)
}

// Whether a variant is there in every state of the rule.
pub fn ask_whole(
    pool: &[u16; TRIPLETS_ROOM],
    spans: &[GuardSpan; GUARDS],
    flags: usize,
    variants: usize,
    depth: u64,
    out: &mut [u16; TRIPLETS_ROOM],
) -> Verdict
    requires stands { Stands pool.now spans.now flags variants }
    requires rooms { Rooms pool.now spans.now out.old }
    ensures { WholeAnswered pool.now spans.now flags variants depth result
        × Rooms pool.now spans.now out.new }
{
    let built = lay_whole(pool, spans, variants, out);
    let formula = Formula {
        triplets: &*out,
        count: built.count,
        root: built.root,
        flags,
    };
    answer(&formula, depth)
}

// Whether the variants i and j exclude each other.
fn ask_pair(
    pool: &[u16; TRIPLETS_ROOM],
    spans: &[GuardSpan; GUARDS],
    flags: usize,
    variants: usize,
    i: usize,
    j: usize,
    depth: u64,
    out: &mut [u16; TRIPLETS_ROOM],
) -> Verdict
    requires stands { Stands pool.now spans.now flags variants }
    requires rooms { Rooms pool.now spans.now out.old }
    requires i_nonzero { (0 < i) × (i < j) × (j ≤ variants) }
    ensures { PairAnswered pool.now spans.now flags variants depth i j result
        × Rooms pool.now spans.now out.new }
{
    let built = lay_pair(pool, spans, i, j, out);
    let formula = Formula {
        triplets: &*out,
        count: built.count,
        root: built.root,
        flags,
    };
    answer(&formula, depth)
}

// The first variant after variant i that does not exclude it.
fn ask_row(
    pool: &[u16; TRIPLETS_ROOM],
    spans: &[GuardSpan; GUARDS],
    flags: usize,
    variants: usize,
    i: usize,
    depth: u64,
    out: &mut [u16; TRIPLETS_ROOM],
) -> Option<Overlap>
    requires stands { Stands pool.now spans.now flags variants }
    requires rooms { Rooms pool.now spans.now out.old }
    requires i_nonzero { (0 < i) × (i < variants) }
    ensures { RowAnswered pool.now spans.now flags variants depth i result
        × Rooms pool.now spans.now out.new }
{
    for j in i + 1..variants + 1 {
        let verdict = ask_pair(pool, spans, flags, variants, i, j, depth, out);
        if is_open(verdict) {
            return Some(Overlap {
                first: i,
                second: j,
                verdict,
            });
        }
    }
    None
}

// The first pair, by its first variant and then its second.
pub fn ask_pairs(
    pool: &[u16; TRIPLETS_ROOM],
    spans: &[GuardSpan; GUARDS],
    flags: usize,
    variants: usize,
    depth: u64,
    out: &mut [u16; TRIPLETS_ROOM],
) -> Option<Overlap>
    requires stands { Stands pool.now spans.now flags variants }
    requires rooms { Rooms pool.now spans.now out.old }
    ensures { PairsAnswered pool.now spans.now flags variants depth result
        × Rooms pool.now spans.now out.new }
{
    for i in 1..variants {
        if let Some(overlap) = ask_row(pool, spans, flags, variants, i, depth, out) {
            return Some(overlap);
        }
    }
    None
}
