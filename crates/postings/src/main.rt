// Performs the script on standard input, and ends with status 1 if some line could not be read.
#![tactic(auto)]

use session::run_script;
use std::io;

fn main(rt: HostRuntime) -> io::Result<()> {
    if run_script(&rt)? > 0 {
        return Err(io::Error::from(io::ErrorKind::InvalidInput));
    }
    Ok(())
}
