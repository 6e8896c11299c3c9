//! `transaction_cases`: each line of stdin is a store or two, and calls of two sessions on transactions over it, or a store and lines of two
//! sessions, as JSON; stdout is what they give, then what the stores hold.
//!
//! The lines stand in the file `stdin` and what they must give in `stdout`, worked out by hand.
#![tactic(auto)]

mod calls;
mod cases;
mod ended;
mod filling;
mod locals;
mod opens;
mod runs;
mod scripts;
mod seats;
mod session_ends;
mod session_lines;
mod steps;
mod txn_calls;
mod views;

use case_lines::lines_or_no_case;
use cases::answer;
use std::io;

fn main(rt: HostRuntime) -> io::Result<()> {
    for line in rt.lines(rt.alloc()) {
        let answer = answer(&rt, rt.alloc(), line?.as_str());
        let text = lines_or_no_case(rt.alloc(), answer)?;
        print!(rt; "{text}")?;
    }
    Ok(())
}
