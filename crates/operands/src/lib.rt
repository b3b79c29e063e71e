// What the reader's levels stand on: steps past a token, the operands that are no guard in brackets, and two operands joined. Each goes
// over the lent place where the reader stands.
#![tactic(auto)]

pub mod waiting;

ghost use Rattle.std.specs.Prelude.{◌≡◌, true, false, ◌+◌, ◌-◌, ◌*◌, ◌≤◌, ◌<◌, length, get_or};
ghost use Rattle.notation.specs.clauses.Cut.{ends, sign_of};
ghost use Rattle.notation.specs.Ceilings.{connective_ceiling, flag_ceiling};
ghost use Rattle.notation.specs.Tokens.{implies};
ghost use Rattle.notation.specs.Triplets.{literal_ceiling};
ghost use Rattle.operands.specs.clauses.Steps.{kind_is, joins, bangs, closes, place, TokenFits, Standing, AdvancedSays, PastSignSays};
ghost use Rattle.operands.specs.clauses.Steps.{PastTokenSays, AtomSays, TruthSays, ClosedSays, JoinedSays};

use notation::ceilings::{CONNECTIVES, FLAGS, TRIPLETS_ROOM};
use notation::codes::{Code, place_of};
use notation::place::{Connective, Kind, Place};
use notation::refusal::{Reason, Refused};
use notation::tokens::token_at;
use notation::triplets;

// One token further.
pub fn advanced(text: &[u8], at: &mut Place) -> Result<(), Refused>
    requires token_fits { TokenFits text.now at.old.token }
    requires at_value { ends at.old.token.kind ≡ false }
    ensures { AdvancedSays text.now at.old result at.new }
{
    token_at(text, at)
}

// Past a sign, of which there may be no more than the ceiling.
pub fn past_sign(text: &[u8], at: &mut Place) -> Result<(), Refused>
    requires token_fits { TokenFits text.now at.old.token }
    requires at_value { joins at.old.token.kind ≡ true }
    ensures { PastSignSays text.now at.old result at.new }
{
    if CONNECTIVES <= at.signs {
        return Err(at.refuse_ahead(Reason::ManyConnectives));
    }
    at.signs += 1;
    token_at(text, at)
}

// Whether a sign stands next.
pub fn sign_follows(at: &Place, sign: Connective) -> bool
    ensures { result ≡ kind_is (sign_of sign) at.now.token.kind }
{
    match at.token.kind {
        Kind::Sign(ahead) => ahead == sign,
        _ => false,
    }
}

pub fn bang_follows(at: &Place) -> bool
    ensures { result ≡ bangs at.now.token.kind }
{
    matches!(at.token.kind, Kind::Bang)
}

fn closing_follows(at: &Place) -> bool
    ensures { result ≡ closes at.now.token.kind }
{
    matches!(at.token.kind, Kind::Closing)
}

// Two operands joined by a sign: their triplet is written after those of both.
pub fn joined(
    out: &mut [u16; TRIPLETS_ROOM],
    at: &mut Place,
    sign: Connective,
    left: u16,
    right: u16,
) -> u16
    requires out_len { length out.old ≡ 3 * connective_ceiling }
    requires at_bound { at.old.count < connective_ceiling }
    requires left_le_literal_ceiling { (left ≤ literal_ceiling) × (right ≤ literal_ceiling) }
    ensures { JoinedSays (sign_of sign) left right
        at.old out.old result at.new out.new }
{
    let count = at.count;
    triplets::write(out, count, sign, left, right);
    at.count = count + 1;
    triplets::literal_of(sign, count)
}

// A literal, once the reader is past its token.
fn past_token(text: &[u8], at: &mut Place, literal: u16) -> Result<u16, Refused>
    requires token_fits { TokenFits text.now at.old.token }
    requires at_value { ends at.old.token.kind ≡ false }
    ensures { PastTokenSays text.now at.old literal result at.new }
{
    let moved = advanced(text, at);
    let Ok(()) = moved else {
        return Err(Refused);
    };
    Ok(literal)
}

// A code: a flag that is known, or a new one.
#[inline(always)]
pub fn code_operand(text: &[u8], at: &mut Place, codes: &mut [Code; FLAGS]) -> Result<u16, Refused>
    requires standing { Standing text.now codes.old (place at.old) }
    requires at_value { at.old.token.kind ≡ Kind.Code }
    ensures { AtomSays text.now at.old codes.old result at.new codes.new }
{
    let code = Code::at(text, at.token.start, at.token.next);
    let flags = at.flags;
    let place = place_of(text, codes, flags, code);
    if place < flags {
        return past_token(text, at, flag_literal(place));
    }
    if FLAGS <= flags {
        return Err(at.refuse_ahead(Reason::ManyFlags));
    }
    codes[flags] = code;
    at.flags = flags + 1;
    past_token(text, at, flag_literal(place))
}

// The literal of the flag at a place of the table, counted from 0.
fn flag_literal(place: usize) -> u16
    requires { place < flag_ceiling }
    ensures { result ≡ 2 * (place + 1) }
{
    (2 * (place + 1)) as u16
}

// `#0` or `#1`.
pub fn truth_operand(text: &[u8], at: &mut Place, truth: bool) -> Result<u16, Refused>
    requires token_fits { TokenFits text.now at.old.token }
    requires at_value { at.old.token.kind ≡ Kind.Truth truth }
    ensures { TruthSays text.now at.old result at.new }
{
    if truth {
        return past_token(text, at, 0);
    }
    past_token(text, at, 1)
}

// Past the bracket that closes a guard.
pub fn closed(text: &[u8], at: &mut Place) -> Result<(), Refused>
    requires token_fits { TokenFits text.now at.old.token }
    requires at_value { joins at.old.token.kind ≡ false }
    ensures { ClosedSays text.now at.old result at.new }
{
    if closing_follows(at) {
        return advanced(text, at);
    }
    Err(at.refuse_ahead(Reason::OutOfPlace))
}
