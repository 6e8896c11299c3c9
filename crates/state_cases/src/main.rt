//! `state_cases`: each line of stdin is a store and calls on a state over it, or one call for a chunk's cells, the cache or locations, as JSON;
//! stdout is what the calls give, one line each.
//!
//! The lines stand in the file `stdin` and what they must give in `stdout`, worked out by hand from the public standards.
#![tactic(auto)]

mod caching;
mod calls;
mod cases;
mod chunks;
mod laying;
mod opens;
mod owner;
mod placing;
mod planning;
mod resizing;
mod runs;
mod settling;

use case_lines::lines_or_no_case;
use cases::answer;
use std::io;

fn main(rt: HostRuntime) -> io::Result<()> {
    for line in rt.lines(rt.alloc()) {
        let answer = answer(rt, line?.as_str());
        let text = lines_or_no_case(rt.alloc(), answer)?;
        print!(rt; "{text}")?;
    }
    Ok(())
}
