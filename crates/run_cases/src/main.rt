//! `run_cases`: each line of stdin is a run of scripts over mounts in memory, as JSON; stdout is what it gives.
//!
//! The lines stand in the file `stdin` and what they must give in `stdout`, worked out by hand. A run is told by its status, the script
//! that wasn't read, the mounts that weren't finished, the number of its events, the text of its answers, and what stands under some keys.
#![tactic(auto)]

mod cases;
mod filling;
mod made;
mod made_events;
mod made_logs;
mod made_shown;
mod mounts;
mod reading;
mod reports;
mod runs;
mod stream_logs;
mod streams;
mod writing;

use case_lines::lines_or_no_case;
use cases::answer;
use std::io;

fn main(rt: HostRuntime) -> io::Result<()> {
    for line in rt.lines(rt.alloc()) {
        let answer = answer(&rt, rt.alloc(), line?.as_str());
        let text = lines_or_no_case(rt.alloc(), answer)?;
        print!(rt; "{text}")?;
    }
    Ok(())
}
