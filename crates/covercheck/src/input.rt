// The whole of standard input, in lent memory.
ghost use Rattle.std.specs.Prelude.{length};
ghost use Rattle.covercheck.specs.clauses.Calls.{InputSays};

use crate::calls::{Told, read_some};

// Reads until the input ends, and answers how many bytes it has; or none where it filled the slice before it ended.
pub fn read_whole(rt: &HostRuntime, into: &mut [u8]) -> Result<Option<usize>, Told>
    ensures { InputSays (length into.old) result }
{
    let mut done = 0;
    while done < into.len() {
        let more = read_some(rt, &mut into[done..])?;
        if more == 0 {
            return Ok(Some(done));
        }
        done += more;
    }
    Ok(None)
}
