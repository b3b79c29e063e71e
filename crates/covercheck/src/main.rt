// Reads lines of a depth and a guard from standard input, and prints the answer to each.
#![tactic(auto)]

mod calls;
mod input;
mod output;
mod pause;

ghost use Rattle.std.specs.Prelude.{◌≤◌, ◌<◌, length};
ghost use Rattle.lines.specs.clauses.Cutting.{LineAt};
ghost use Rattle.lines.specs.Output.{input_ceiling};
ghost use Rattle.covercheck.specs.clauses.Ending.{EndingSays};

use calls::Told;
use input::read_whole;
use lines::answer::{ANSWER, answer_line};
use lines::cut::line_end;
use output::write_whole;
use std::env::{Env, FillError};

// Bytes of an input.
const INPUT: usize = 65536;

// So many lines were answered before the first whose answer was lost.
#[derive(Clone, Copy)]
struct Lost {
    answered: u64,
}

// Writes the answer to a line of the input.
fn answer(rt: &HostRuntime, input: &[u8], number: u64, start: usize, end: usize) -> Result<(), Told>
    requires { LineAt input.now number start end }
{
    let mut out = [0u8; ANSWER];
    let len = answer_line(number, &input[start..end], &mut out);
    write_whole(rt, &out[0..len])
}

// Each answer is written before the next line is looked at. Answers how many lines the input has.
fn answer_all(rt: &HostRuntime, input: &[u8]) -> Result<u64, Lost>
    requires { length input.now ≤ input_ceiling }
    ensures { EndingSays input.now result }
{
    let mut start = 0;
    let mut number: u64 = 0;
    while start < input.len() {
        let end = line_end(input, start);
        let Ok(()) = answer(rt, input, number + 1, start, end) else {
            return Err(Lost { answered: number });
        };
        number += 1;
        start = end + 1;
    }
    Ok(number)
}

// The answers to a whole input. Where one is lost, it was told as it was.
fn answer_input(rt: &HostRuntime, input: &[u8])
    requires { length input.now ≤ input_ceiling }
{
    let _ = answer_all(rt, input);
}

// The one line for an input over the ceiling.
fn refuse_input(rt: &HostRuntime, input: &[u8])
    requires { input_ceiling < length input.now }
{
    let _ = write_whole(rt, b"input too long\n");
}

// Whether there is an argument beside the program's own name.
fn has_argument(rt: &HostRuntime) -> bool {
    let mut start = [0u8; 1];
    !matches!(rt.arg(1, &mut start), Err(FillError::NotPresent))
}

// The one line for a program that is given arguments. Where it cannot be said, nothing is left to say it to.
fn tell_usage(rt: &HostRuntime) {
    let _ = eprintln!(rt; "usage: covercheck < guards.txt");
}

fn main(rt: HostRuntime) {
    if has_argument(&rt) {
        tell_usage(&rt);
        return;
    }
    let mut input = [0u8; INPUT + 1];
    match read_whole(&rt, &mut input) {
        Err(Told) => {}
        Ok(None) => refuse_input(&rt, &input),
        Ok(Some(len)) => answer_input(&rt, &input[0..len]),
    }
}
