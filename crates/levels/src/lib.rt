// The reader: one function for each level of the notation, from loosest to tightest. They call each other in a cycle, measured by the
// text that is left. Those that all levels share are inlined, since a call with so many arguments costs as much as what it does.
#![tactic(auto)]

ghost use Rattle.std.specs.Prelude.{◌≡◌, false, ◌+◌};
ghost use Rattle.notation.specs.Tokens.{and, or, implies, same};
ghost use Rattle.notation.specs.clauses.Cut.{sign_of};
ghost use Rattle.notation.specs.Grammar.{left_level, right_level};
ghost use Rattle.operands.specs.clauses.Steps.{bangs};
ghost use Rattle.levels.specs.clauses.Levels.{plain, operands_at, below_of, tighter, Asks, Says, Begun, ChainSays};

use notation::ceilings::{BRACKETS, FLAGS, TRIPLETS_ROOM};
use notation::codes::Code;
use notation::place::{Connective, Kind, Place};
use notation::refusal::{Reason, Refused};
use notation::triplets::flipped;
use operands::waiting::Stack;
use operands::{
    advanced, bang_follows, closed, code_operand, joined, past_sign, sign_follows, truth_operand,
};

// A guard: operands joined by `=`, which groups to the left. It, `either` and `both` differ in their sign alone, and stay apart, since the outline
// wants one function for each level.
#[cycle(levels)]
pub fn same(
    text: &[u8],
    at: &mut Place,
    brackets: usize,
    codes: &mut [Code; FLAGS],
    out: &mut [u16; TRIPLETS_ROOM],
    wait: &mut Stack,
) -> Result<u16, Refused>
    requires { Asks text.now at.old brackets codes.old out.old wait.old }
    ensures { Says (plain (left_level same (below_of same (operands_at brackets)))) brackets 4
        text.now at.old codes.old out.old wait.old result
        at.new codes.new out.new wait.new }
{
    let first = implies(text, at, brackets, codes, out, wait);
    let Ok(left) = first else {
        return first;
    };
    if !sign_follows(at, Connective::Same) {
        return first;
    }
    left_chain(text, at, brackets, codes, out, wait, Connective::Same, left)
}

// Operands joined by `>`, which groups to the right: those before a sign wait, and are joined from the right when the chain ends. Inlined, so
// that a bracket returns from one call less: a processor foresees only so many returns.
#[cycle(levels)]
#[inline(always)]
fn implies(
    text: &[u8],
    at: &mut Place,
    brackets: usize,
    codes: &mut [Code; FLAGS],
    out: &mut [u16; TRIPLETS_ROOM],
    wait: &mut Stack,
) -> Result<u16, Refused>
    requires { Asks text.now at.old brackets codes.old out.old wait.old }
    ensures { Says (plain (right_level implies (below_of implies (operands_at brackets)))) brackets 3
        text.now at.old codes.old out.old wait.old result
        at.new codes.new out.new wait.new }
{
    let base = wait.count;
    let first = either(text, at, brackets, codes, out, wait);
    let Ok(left) = first else {
        return first;
    };
    let mut last = left;
    while sign_follows(at, Connective::Implies) {
        let moved = past_sign(text, at);
        let Ok(()) = moved else {
            return Err(Refused);
        };
        wait.push(last);
        let next = either(text, at, brackets, codes, out, wait);
        let Ok(right) = next else {
            return next;
        };
        last = right;
    }
    while base < wait.count {
        let left = wait.pop();
        last = joined(out, at, Connective::Implies, left, last);
    }
    Ok(last)
}

// Operands joined by `|`, which groups to the left.
#[cycle(levels)]
fn either(
    text: &[u8],
    at: &mut Place,
    brackets: usize,
    codes: &mut [Code; FLAGS],
    out: &mut [u16; TRIPLETS_ROOM],
    wait: &mut Stack,
) -> Result<u16, Refused>
    requires { Asks text.now at.old brackets codes.old out.old wait.old }
    ensures { Says (plain (left_level or (below_of or (operands_at brackets)))) brackets 2
        text.now at.old codes.old out.old wait.old result
        at.new codes.new out.new wait.new }
{
    let first = both(text, at, brackets, codes, out, wait);
    let Ok(left) = first else {
        return first;
    };
    if !sign_follows(at, Connective::Or) {
        return first;
    }
    left_chain(text, at, brackets, codes, out, wait, Connective::Or, left)
}

// Operands joined by `&`, which groups to the left.
#[cycle(levels)]
fn both(
    text: &[u8],
    at: &mut Place,
    brackets: usize,
    codes: &mut [Code; FLAGS],
    out: &mut [u16; TRIPLETS_ROOM],
    wait: &mut Stack,
) -> Result<u16, Refused>
    requires { Asks text.now at.old brackets codes.old out.old wait.old }
    ensures { Says (plain (left_level and (below_of and (operands_at brackets)))) brackets 1
        text.now at.old codes.old out.old wait.old result
        at.new codes.new out.new wait.new }
{
    let first = operand(text, at, brackets, codes, out, wait);
    let Ok(left) = first else {
        return first;
    };
    if !sign_follows(at, Connective::And) {
        return first;
    }
    left_chain(text, at, brackets, codes, out, wait, Connective::And, left)
}

// The level whose operands a sign joins. Inlined where the sign is known, it is one call.
#[cycle(levels)]
#[inline(always)]
fn below(
    text: &[u8],
    at: &mut Place,
    brackets: usize,
    codes: &mut [Code; FLAGS],
    out: &mut [u16; TRIPLETS_ROOM],
    wait: &mut Stack,
    sign: Connective,
) -> Result<u16, Refused>
    requires { Asks text.now at.old brackets codes.old out.old wait.old }
    ensures { Says (plain (below_of (sign_of sign) (operands_at brackets))) brackets (tighter (sign_of sign))
        text.now at.old codes.old out.old wait.old result
        at.new codes.new out.new wait.new }
{
    match sign {
        Connective::And => operand(text, at, brackets, codes, out, wait),
        Connective::Or => both(text, at, brackets, codes, out, wait),
        Connective::Implies => either(text, at, brackets, codes, out, wait),
        Connective::Same => implies(text, at, brackets, codes, out, wait),
    }
}

// The further operands of a chain that a sign joins to the left.
#[cycle(levels)]
#[inline(always)]
fn left_chain(
    text: &[u8],
    at: &mut Place,
    brackets: usize,
    codes: &mut [Code; FLAGS],
    out: &mut [u16; TRIPLETS_ROOM],
    wait: &mut Stack,
    sign: Connective,
    first: u16,
) -> Result<u16, Refused>
    requires { Begun (sign_of sign) brackets text.now first at.old codes.old out.old wait.old }
    ensures { ChainSays (sign_of sign) brackets
        text.now first at.old codes.old out.old wait.old result
        at.new codes.new out.new wait.new }
{
    let mut left = first;
    while sign_follows(at, sign) {
        let moved = past_sign(text, at);
        let Ok(()) = moved else {
            return Err(Refused);
        };
        let next = below(text, at, brackets, codes, out, wait, sign);
        let Ok(right) = next else {
            return next;
        };
        left = joined(out, at, sign, left, right);
    }
    Ok(left)
}

// An operand with any number of `!` before it.
#[cycle(levels)]
#[inline(always)]
fn operand(
    text: &[u8],
    at: &mut Place,
    brackets: usize,
    codes: &mut [Code; FLAGS],
    out: &mut [u16; TRIPLETS_ROOM],
    wait: &mut Stack,
) -> Result<u16, Refused>
    requires { Asks text.now at.old brackets codes.old out.old wait.old }
    ensures { Says (plain (operands_at brackets)) brackets 0
        text.now at.old codes.old out.old wait.old result
        at.new codes.new out.new wait.new }
{
    let mut odd: u16 = 0;
    let mut bang = bang_follows(at);
    while bang {
        let moved = advanced(text, at);
        let Ok(()) = moved else {
            return Err(Refused);
        };
        odd = 1 - odd;
        bang = bang_follows(at);
    }
    let plain = plain(text, at, brackets, codes, out, wait);
    let Ok(literal) = plain else {
        return plain;
    };
    Ok(flipped(literal, odd))
}

// An operand with no `!` before it: a code, `#0` or `#1`, or a guard in brackets.
#[cycle(levels)]
fn plain(
    text: &[u8],
    at: &mut Place,
    brackets: usize,
    codes: &mut [Code; FLAGS],
    out: &mut [u16; TRIPLETS_ROOM],
    wait: &mut Stack,
) -> Result<u16, Refused>
    requires asks { Asks text.now at.old brackets codes.old out.old wait.old }
    requires at_value { bangs at.old.token.kind ≡ false }
    ensures { Says (plain (operands_at brackets)) brackets 0
        text.now at.old codes.old out.old wait.old result
        at.new codes.new out.new wait.new }
{
    match at.token.kind {
        Kind::Code => code_operand(text, at, codes),
        Kind::Truth(truth) => truth_operand(text, at, truth),
        Kind::Opening => bracket(text, at, brackets, codes, out, wait),
        _ => Err(at.refuse_ahead(Reason::OutOfPlace)),
    }
}

// A guard in brackets, which is an operand again.
#[cycle(levels)]
fn bracket(
    text: &[u8],
    at: &mut Place,
    brackets: usize,
    codes: &mut [Code; FLAGS],
    out: &mut [u16; TRIPLETS_ROOM],
    wait: &mut Stack,
) -> Result<u16, Refused>
    requires asks { Asks text.now at.old brackets codes.old out.old wait.old }
    requires at_value { at.old.token.kind ≡ Kind.Opening }
    ensures { Says (plain (operands_at brackets)) brackets 0
        text.now at.old codes.old out.old wait.old result
        at.new codes.new out.new wait.new }
{
    if BRACKETS <= brackets {
        return Err(at.refuse_ahead(Reason::ManyBrackets));
    }
    let moved = advanced(text, at);
    let Ok(()) = moved else {
        return Err(Refused);
    };
    let inner = same(text, at, brackets + 1, codes, out, wait);
    let Ok(literal) = inner else {
        return inner;
    };
    let shut = closed(text, at);
    let Ok(()) = shut else {
        return Err(Refused);
    };
    Ok(literal)
}
