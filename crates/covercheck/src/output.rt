// Writing to standard output.
use crate::calls::{LOST, Told, fail, write_some};
use std::io::{Error, ErrorKind};

// Writes all of the bytes. A write that fails or takes nothing is told.
pub fn write_whole(rt: &HostRuntime, bytes: &[u8]) -> Result<(), Told> {
    let mut done = 0;
    while done < bytes.len() {
        let more = write_some(rt, &bytes[done..])?;
        if more == 0 {
            return Err(fail(rt, LOST, Error::from(ErrorKind::WriteZero)));
        }
        done += more;
    }
    Ok(())
}
