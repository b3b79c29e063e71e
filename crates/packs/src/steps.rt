// One field further in a pack: a step for each role that a field can have.
ghost use Rattle.std.specs.Prelude.{◌≡◌, take};
ghost use Rattle.notation.specs.Refusals.{fault};
ghost use Rattle.notation.specs.Reading.{reading_from};
ghost use Rattle.notation.specs.clauses.Codes.{flags_in};
ghost use Rattle.fields.specs.clauses.Here.{FieldHere};
ghost use Rattle.packs.specs.clauses.Says.{Going, StepAsks, StepSays, GuardAsks, GuardTakenSays, end_step};

use crate::due::{Due, Role, role_of};
use crate::pool::{keep, note, note_text};
use building::spans::GuardSpan;
use fields::{Field, field_at};
use notation::ceilings::{FLAGS, TRIPLETS_ROOM};
use notation::codes::Code;
use notation::refusal::{Reason, Refusal, fault};
use questions::{GUARDS, VARIANTS};
use reading::parse::{Guard, parse_from};

// Bytes of a line's id.
const ID: usize = 16;

// Where the reader of a pack stands: the place, what is due there, how many flags and variants lie behind, and the connectives of all guards.
#[derive(Clone, Copy)]
pub struct Progress {
    pub at: usize,
    pub due: Due,
    pub flags: usize,
    pub variants: usize,
    pub total: usize,
}

// A guard of the pack, from start to end, as guard `row` of the line: its triplets go behind the others in the pool, where they fit. Its
// text is all of the pack up to its end, so that every place is one of the pack.
fn read_guard(
    file: &[u8],
    start: usize,
    end: usize,
    flags: usize,
    total: usize,
    row: usize,
    codes: &mut [Code; FLAGS],
    pool: &mut [u16; TRIPLETS_ROOM],
    spans: &mut [GuardSpan; GUARDS],
) -> Result<Guard, Refusal>
    requires { GuardAsks file.now start end flags total row codes.old pool.old spans.old }
    ensures { GuardTakenSays
        (reading_from (take end file.now) start (flags_in (take end file.now) codes.old flags))
        file.now end row total result pool.old spans.old
        codes.new pool.new spans.new }
{
    let mut out = [0u16; TRIPLETS_ROOM];
    let guard = parse_from(&file[0..end], start, flags, codes, &mut out)?;
    keep(&out, guard.count, pool, total);
    note(spans, row, total, guard.count, guard.root);
    Ok(guard)
}

// An id: only its length matters.
fn id_step(
    file: &[u8],
    p: Progress,
    start: usize,
    end: usize,
    codes: &[Code; FLAGS],
    pool: &[u16; TRIPLETS_ROOM],
    spans: &[GuardSpan; GUARDS],
) -> Result<Option<Progress>, Refusal>
    requires { StepAsks file.now codes.now pool.now spans.now p Role.Id start end }
    ensures { StepSays file.now p result codes.now pool.now spans.now }
{
    let len = end - start;
    if len == 0 {
        return Err(fault(Reason::WrongId, p.at));
    }
    if ID < len {
        return Err(fault(Reason::WrongId, p.at));
    }
    Ok(Some(Progress {
        at: end,
        due: Due::RuleOrVariant,
        ..p
    }))
}

// A rule: guard 0 of the line.
fn rule_step(
    file: &[u8],
    p: Progress,
    start: usize,
    end: usize,
    codes: &mut [Code; FLAGS],
    pool: &mut [u16; TRIPLETS_ROOM],
    spans: &mut [GuardSpan; GUARDS],
) -> Result<Option<Progress>, Refusal>
    requires { StepAsks file.now codes.old pool.old spans.old p Role.Rule start end }
    ensures { StepSays file.now p result codes.new pool.new spans.new }
{
    let guard = read_guard(file, start, end, p.flags, p.total, 0, codes, pool, spans)?;
    Ok(Some(Progress {
        at: end,
        due: Due::Variant,
        flags: guard.flags,
        variants: p.variants,
        total: p.total + guard.count,
    }))
}

// A variant: the next guard of the line.
fn variant_step(
    file: &[u8],
    p: Progress,
    start: usize,
    end: usize,
    codes: &mut [Code; FLAGS],
    pool: &mut [u16; TRIPLETS_ROOM],
    spans: &mut [GuardSpan; GUARDS],
) -> Result<Option<Progress>, Refusal>
    requires { StepAsks file.now codes.old pool.old spans.old p Role.Variant start end }
    ensures { StepSays file.now p result codes.new pool.new spans.new }
{
    if VARIANTS <= p.variants {
        return Err(fault(Reason::WrongVariants, p.at));
    }
    let row = p.variants + 1;
    let guard = read_guard(file, start, end, p.flags, p.total, row, codes, pool, spans)?;
    Ok(Some(Progress {
        at: end,
        due: Due::Text,
        flags: guard.flags,
        variants: row,
        total: p.total + guard.count,
    }))
}

// The text of the last variant.
fn text_step(
    file: &[u8],
    p: Progress,
    start: usize,
    end: usize,
    codes: &[Code; FLAGS],
    pool: &[u16; TRIPLETS_ROOM],
    spans: &mut [GuardSpan; GUARDS],
) -> Result<Option<Progress>, Refusal>
    requires { StepAsks file.now codes.now pool.now spans.old p Role.Text start end }
    ensures { StepSays file.now p result codes.now pool.now spans.new }
{
    note_text(spans, p.variants, start, end);
    Ok(Some(Progress {
        at: end,
        due: Due::VariantOrEnd,
        ..p
    }))
}

// The pack ends: a line where all its fields are there.
fn ended(p: Progress) -> Result<Option<Progress>, Refusal>
    ensures { result ≡ end_step p.due p.at }
{
    match p.due {
        Due::Id => Err(fault(Reason::WrongField, p.at)),
        Due::RuleOrVariant => Err(fault(Reason::WrongVariants, p.at)),
        Due::Variant => Err(fault(Reason::WrongVariants, p.at)),
        Due::Text => Err(fault(Reason::WrongField, p.at)),
        Due::VariantOrEnd => Ok(None),
    }
}

// A whole field, by what it is where it stands.
fn field_step(
    file: &[u8],
    p: Progress,
    tag: u8,
    start: usize,
    end: usize,
    codes: &mut [Code; FLAGS],
    pool: &mut [u16; TRIPLETS_ROOM],
    spans: &mut [GuardSpan; GUARDS],
) -> Result<Option<Progress>, Refusal>
    requires going { Going file.now codes.old pool.old spans.old p }
    requires field_here { FieldHere file.now p.at tag start end }
    ensures { StepSays file.now p result codes.new pool.new spans.new }
{
    match role_of(p.due, tag) {
        Role::Wrong => Err(fault(Reason::WrongField, p.at)),
        Role::Id => id_step(file, p, start, end, codes, pool, spans),
        Role::Rule => rule_step(file, p, start, end, codes, pool, spans),
        Role::Variant => variant_step(file, p, start, end, codes, pool, spans),
        Role::Text => text_step(file, p, start, end, codes, pool, spans),
    }
}

// One field further, or none at the end of the line.
pub fn step_on(
    file: &[u8],
    p: Progress,
    codes: &mut [Code; FLAGS],
    pool: &mut [u16; TRIPLETS_ROOM],
    spans: &mut [GuardSpan; GUARDS],
) -> Result<Option<Progress>, Refusal>
    requires { Going file.now codes.old pool.old spans.old p }
    ensures { StepSays file.now p result codes.new pool.new spans.new }
{
    match field_at(file, p.at) {
        Field::Whole { tag, start, end } => field_step(
            file, p, tag, start, end, codes, pool, spans,
        ),
        Field::Cut => Err(fault(Reason::WrongField, p.at)),
        Field::End => ended(p),
    }
}
