//! `format_cases`: each line of stdin is one call as JSON, and each line of stdout what it gives.
//!
//! The lines stand in the file `stdin` and what they must give in `stdout`, worked out by hand or by another program.
#![tactic(auto)]

mod asking;
mod cases;
mod encode;
mod forms;
mod homes;
mod json;
mod large;
mod opening;
mod wants;
mod writable;

use case_lines::line_or_no_case;
use cases::answer;
use std::io;

fn main(rt: HostRuntime) -> io::Result<()> {
    for line in rt.lines(rt.alloc()) {
        let answer = answer(rt.alloc(), line?.as_str());
        let text = line_or_no_case(rt.alloc(), answer)?;
        println!(rt; "{text}")?;
    }
    Ok(())
}
