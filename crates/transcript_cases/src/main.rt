//! `transcript_cases`: each line of stdin has scripts and a transcript, files that are checked, a chunk with words that events put there, or steps
//! over all chunks of a run; each line of stdout what a check, or its steps, tell of them.
//!
//! The lines stand in the file `stdin` and what they must give in `stdout`, worked out by hand.
#![tactic(auto)]

mod args;
mod cases;
mod checks;
mod fault;
mod files;
mod judging;
mod stores;
mod texts;
mod versions;

use cases::answer;
use std::io;

fn main(rt: HostRuntime) -> io::Result<()> {
    for line in rt.lines(rt.alloc()) {
        let text = answer(rt.alloc(), line?.as_str())?;
        println!(rt; "{text}")?;
    }
    Ok(())
}
