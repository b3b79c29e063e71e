// The answer to a line, as it is printed.
ghost use Rattle.std.specs.Prelude.{◌+◌, ◌≤◌, [], length};
ghost use Rattle.saturation.specs.declared.verdict.Verdict.TheVariants.{Gap};
ghost use Rattle.lines.specs.clauses.Put.{Puts, PutsIn, verdict_room, answer_room};
ghost use Rattle.lines.specs.Printed.{answered, printed};
ghost use Rattle.lines.specs.Answer.{Answers};

use crate::flags::put_flags;
use crate::put::{put, put_all, put_number};
use crate::question::question_of;
use guard_check::check::check;
use notation::refusal::{Reason, Refusal};
use saturation::verdict::Verdict;

// Bytes of a room for any output line.
pub const ANSWER: usize = 512;

fn put_refusal(out: &mut [u8], at: usize, refusal: Refusal) -> usize
    requires { at + verdict_room ≤ length out.old }
    ensures { PutsIn verdict_room out.old at (answered [] (Err refusal)) out.new result }
{
    let number = put_all(out, at, b"refused ");
    let space = put_number(out, number, refusal.reason.number() as u64);
    let place = put(out, space, b' ');
    put_number(out, place, refusal.place as u64)
}

fn put_gap(out: &mut [u8], at: usize, text: &[u8], state: u64) -> usize
    requires { at + verdict_room ≤ length out.old }
    ensures { PutsIn verdict_room out.old at (answered text.now (Ok (Gap state))) out.new result }
{
    let next = put_all(out, at, b"gap");
    put_flags(out, next, text, state)
}

fn put_verdict(out: &mut [u8], at: usize, text: &[u8], verdict: Verdict) -> usize
    requires { at + verdict_room ≤ length out.old }
    ensures { PutsIn verdict_room out.old at (answered text.now (Ok verdict)) out.new result }
{
    match verdict {
        Verdict::Covered => put_all(out, at, b"covered"),
        Verdict::Gap(state) => put_gap(out, at, text, state),
        Verdict::Undecided => put_all(out, at, b"undecided"),
    }
}

// A verdict, or the refusal of a text.
fn put_answer(out: &mut [u8], at: usize, text: &[u8], answer: Result<Verdict, Refusal>) -> usize
    requires { at + verdict_room ≤ length out.old }
    ensures { PutsIn verdict_room out.old at (answered text.now answer) out.new result }
{
    match answer {
        Ok(verdict) => put_verdict(out, at, text, verdict),
        Err(refusal) => put_refusal(out, at, refusal),
    }
}

// The line number, a space, the verdict and a line feed.
fn put_line(out: &mut [u8], number: u64, text: &[u8], verdict: Result<Verdict, Refusal>) -> usize
    requires { answer_room ≤ length out.old }
    ensures { Puts out.old 0 (printed number text.now verdict) out.new result }
{
    let space = put_number(out, 0, number);
    let answer = put(out, space, b' ');
    let end = put_answer(out, answer, text, verdict);
    put(out, end, b'\n')
}

// What is printed for a line: answers how many bytes of the room it is. The others stay as they were.
pub fn answer_line(number: u64, line: &[u8], out: &mut [u8; ANSWER]) -> usize
    ensures { Answers number line.now out.old out.new result }
{
    let Some(question) = question_of(line) else {
        let refusal = Refusal {
            reason: Reason::MalformedLine,
            place: 0,
        };
        return put_line(out, number, b"", Err(refusal));
    };
    let text = &line[question.start..];
    let verdict = check(text, question.depth);
    put_line(out, number, text, verdict)
}
