// The lent tables of a line: a pool that holds the triplets of all its guards, and where each guard and each text stands.
ghost use Rattle.std.specs.Prelude.{◌≡◌, ◌+◌, ◌*◌, ◌≤◌, length};
ghost use Rattle.notation.specs.Ceilings.{connective_ceiling};
ghost use Rattle.questions.specs.Questions.{variant_ceiling};
ghost use Rattle.questions.specs.clauses.Laying.{spans_room};
ghost use Rattle.packs.specs.clauses.Taken.{guard_ceiling, KeepSays, Noted, NotedText};

use building::spans::GuardSpan;
use notation::ceilings::{CONNECTIVES, TRIPLETS_ROOM};
use questions::GUARDS;

// Copies triplets behind others in the pool, where they fit: a line whose guards do not fit together is refused in the end.
pub fn keep(
    from: &[u16; TRIPLETS_ROOM],
    count: usize,
    pool: &mut [u16; TRIPLETS_ROOM],
    total: usize,
)
    requires from_len { (length from.now ≡ 3 * connective_ceiling) × (length pool.old ≡ 3 * connective_ceiling) }
    requires count_le_connective_ceiling { (count ≤ connective_ceiling) × (total ≤ guard_ceiling * connective_ceiling) }
    ensures { KeepSays from.now count total pool.old pool.new }
{
    if CONNECTIVES < total + count {
        return;
    }
    let start = 3 * total;
    let len = 3 * count;
    pool[start..start + len].copy_from_slice(&from[0..len]);
}

// Notes where guard k stands in the pool: behind how many triplets, how many of its own it has, and its root.
pub fn note(spans: &mut [GuardSpan; GUARDS], k: usize, total: usize, count: usize, root: u16)
    requires { (length spans.old ≡ spans_room) × (k ≤ variant_ceiling) }
    ensures { Noted k total count root spans.old spans.new }
{
    let span = &mut spans[k];
    span.off = total;
    span.count = count;
    span.root = root as usize;
}

// Notes where the text of variant k stands in the pack.
pub fn note_text(spans: &mut [GuardSpan; GUARDS], k: usize, start: usize, end: usize)
    requires { (length spans.old ≡ spans_room) × (k ≤ variant_ceiling) }
    ensures { NotedText k start end spans.old spans.new }
{
    let span = &mut spans[k];
    span.text_start = start;
    span.text_end = end;
}
