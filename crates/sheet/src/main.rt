// Answers a sheet: reads it on standard input, and writes a row for each lookup and for each line that is refused.
#![tactic(auto)]

use sheets::answer_sheet;
use std::io::{Read, Write};

fn run(rt: &HostRuntime) -> anyhow::Result<()> {
    let mut sheet = Vec::new(rt.alloc());
    rt.stdin().read_to_end(&mut sheet)?;
    let rows = answer_sheet(rt.alloc(), sheet.as_slice())?;
    rt.stdout().write_all(rows.as_slice())?;
    Ok(())
}

fn main(rt: HostRuntime) -> anyhow::Result<()> {
    run(&rt)
}
