//! Reads a session file from standard input and prints the session in the standard column order, or its fault.
#![tactic(auto)]

use standard::source::answered;
use std::io::Write;

fn main(rt: HostRuntime) -> anyhow::Result<()> {
    let text = answered(rt.alloc(), rt.stdin())?;
    rt.stdout().write_all(&text)?;
    Ok(())
}
