// Says in words how a sheet's requests are read, what a host says of them, what labels try, which candidates there are, where quiet requests end and what the lookup of each ends in.
#![tactic(auto)]

mod answer;
mod cause;
mod ending;
mod front;
mod numbered;
mod offer;
mod question;
mod quiet;
mod reading;
mod refusal;
mod sentence;
mod shown;
mod telling;
mod trial;
mod whole;

use std::io;
use std::io::{BufWriter, Read, Write};
use whole::explain;

// What was told is written out before an error is handed on.
fn main(rt: HostRuntime) -> anyhow::Result<()> {
    let mut sheet = Vec::new(rt.alloc());
    rt.stdin().read_to_end(&mut sheet)?;
    let mut out = BufWriter::new(rt.alloc(), io::writer(&rt))?;
    let told = explain(rt.alloc(), sheet.as_slice(), &mut out);
    out.flush()?;
    told
}
