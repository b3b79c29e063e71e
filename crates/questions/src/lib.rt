// The questions that are put of a line, built of its guards.
#![tactic(auto)]

ghost use Rattle.questions.specs.clauses.Laying.{LayGuardAsks, LayGuardSays, PairAsks, PairLaid, OthersAsk, OthersLaid, WholeAsks, WholeLaid};

use building::spans::GuardSpan;
use building::{lay, tie};
use notation::ceilings::TRIPLETS_ROOM;
use notation::place::Connective;
use notation::triplets::flipped;

// Variants of a line.
pub const VARIANTS: usize = 16;

// Guards of a line: its rule, then each variant.
pub const GUARDS: usize = VARIANTS + 1;

// A guard that has been laid: how many triplets stand then, and its literal.
#[derive(Clone, Copy)]
pub struct Built {
    pub count: usize,
    pub root: u16,
}

// Guard k of a line, laid behind others.
fn lay_guard(
    pool: &[u16; TRIPLETS_ROOM],
    spans: &[GuardSpan; GUARDS],
    k: usize,
    out: &mut [u16; TRIPLETS_ROOM],
    before: usize,
) -> Built
    requires { LayGuardAsks pool.now spans.now k out.old before }
    ensures { LayGuardSays pool.now spans.now k out.old before out.new result }
{
    let span = spans[k];
    let count = span.count;
    let root = lay(pool, span.off, count, span.root as u16, out, before);
    Built {
        count: before + count,
        root,
    }
}

// The question of the variants i and j, rule > !(vi&vj).
pub fn lay_pair(
    pool: &[u16; TRIPLETS_ROOM],
    spans: &[GuardSpan; GUARDS],
    i: usize,
    j: usize,
    out: &mut [u16; TRIPLETS_ROOM],
) -> Built
    requires { PairAsks pool.now spans.now i j out.old }
    ensures { PairLaid pool.now spans.now i j out.old out.new result }
{
    let given = lay_guard(pool, spans, 0, out, 0);
    let left = lay_guard(pool, spans, i, out, given.count);
    let right = lay_guard(pool, spans, j, out, left.count);
    let both = tie(out, right.count, Connective::And, left.root, right.root);
    let root = tie(
        out,
        right.count + 1,
        Connective::Implies,
        given.root,
        flipped(both, 1),
    );
    Built {
        count: right.count + 2,
        root,
    }
}

// The variants from the second on, joined by `|` to the first, which has been laid.
fn lay_others(
    pool: &[u16; TRIPLETS_ROOM],
    spans: &[GuardSpan; GUARDS],
    variants: usize,
    out: &mut [u16; TRIPLETS_ROOM],
    first: Built,
) -> Built
    requires { OthersAsk pool.now spans.now variants out.old first }
    ensures { OthersLaid pool.now spans.now variants out.old first out.new result }
{
    let mut count = first.count;
    let mut root = first.root;
    for k in 2..variants + 1 {
        let right = lay_guard(pool, spans, k, out, count);
        root = tie(out, right.count, Connective::Or, root, right.root);
        count = right.count + 1;
    }
    Built { count, root }
}

// The question of a whole line, rule > ((v1|v2)|v3 ..).
pub fn lay_whole(
    pool: &[u16; TRIPLETS_ROOM],
    spans: &[GuardSpan; GUARDS],
    variants: usize,
    out: &mut [u16; TRIPLETS_ROOM],
) -> Built
    requires { WholeAsks pool.now spans.now variants out.old }
    ensures { WholeLaid pool.now spans.now variants out.old out.new result }
{
    let rule = lay_guard(pool, spans, 0, out, 0);
    let first = lay_guard(pool, spans, 1, out, rule.count);
    let any = lay_others(pool, spans, variants, out, first);
    let root = tie(out, any.count, Connective::Implies, rule.root, any.root);
    Built {
        count: any.count + 1,
        root,
    }
}
