// Prints what the writers answer and leave in their outputs, for rt to compare with the file stdout.
#![tactic(auto)]

mod refusals;
mod sentence;
mod show;
mod streams;

use std::io;

fn main(rt: HostRuntime) -> io::Result<()> {
    sentence::samples(&rt)?;
    streams::samples(&rt)?;
    refusals::samples(&rt)
}
