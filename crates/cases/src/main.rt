// Performs the cases on standard input, wrong lines among them.
#![tactic(auto)]

use session::run_script;
use std::io;

fn main(rt: HostRuntime) -> io::Result<()> {
    let _wrong = run_script(&rt)?;
    Ok(())
}
