// One read or one write of the operating system: an interrupted one is made again, and one that would block waits.
ghost use Rattle.std.specs.Prelude.{length};
ghost use Rattle.covercheck.specs.clauses.Calls.{MovedSays};

use crate::pause::pause;
use std::io::{Error, ErrorKind, Read, Write};

// A call failed, and that was told.
#[derive(Clone, Copy)]
pub struct Told;

// How often a call is made again at most: it has to end, and no machine lasts as long.
const TURNS: u64 = 18446744073709551615;

// What is told where an input or an answer is lost.
const UNREAD: &str = "the input cannot be read";

pub const LOST: &str = "the answers are not complete";

// Whether the call that just failed is to be made again: at once where it was interrupted, after a pause where it would block.
fn is_passing(rt: &HostRuntime, error: &Error) -> bool {
    match error.kind() {
        ErrorKind::Interrupted => true,
        ErrorKind::WouldBlock => {
            pause(rt);
            true
        }
        _ => false,
    }
}

// One line on standard error: what cannot be, and why. Where that cannot be said either, nothing is left to say it to.
pub fn fail(rt: &HostRuntime, what: &str, why: Error) -> Told {
    let _ = eprintln!(rt; "covercheck: {what}: {why}");
    Told
}

// Reads into the slice: at least one byte, or none at the end of the input. A read that fails is told.
pub fn read_some(rt: &HostRuntime, into: &mut [u8]) -> Result<usize, Told>
    ensures { MovedSays (length into.old) result }
{
    for _ in 0..TURNS {
        match rt.stdin().read(into) {
            Ok(got) => return Ok(got),
            Err(error) => {
                if !is_passing(rt, &error) {
                    return Err(fail(rt, UNREAD, error));
                }
            }
        }
    }
    Err(fail(rt, UNREAD, Error::from(ErrorKind::Interrupted)))
}

// Writes some of the bytes: at least one, where there are any. A write that fails is told. It stands beside `read_some` as it is: one function over
// both calls would have to ask of the call how many bytes it may say it moved, which is longer than the few lines that they share.
pub fn write_some(rt: &HostRuntime, bytes: &[u8]) -> Result<usize, Told>
    ensures { MovedSays (length bytes.now) result }
{
    for _ in 0..TURNS {
        match rt.stdout().write(bytes) {
            Ok(put) => return Ok(put),
            Err(error) => {
                if !is_passing(rt, &error) {
                    return Err(fail(rt, LOST, error));
                }
            }
        }
    }
    Err(fail(rt, LOST, Error::from(ErrorKind::Interrupted)))
}
