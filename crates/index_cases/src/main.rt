//! `index_cases`: each line of stdin is one call over the index space, or a Spec, as JSON, each line of stdout what it gives.
//!
//! The lines stand in the file `stdin` and what they must give in `stdout`, worked out by hand or by another program.
//! `README.md` has the forms of lines.
#![tactic(auto)]

mod args;
mod cases;
mod grids;
mod intervals;
mod parts;
mod spec_building;
mod spec_reading;
mod steps;
mod told;
mod transforms;

use case_lines::line_or_no_case;
use cases::answer;
use std::io;

fn main(rt: HostRuntime) -> io::Result<()> {
    for line in rt.lines(rt.alloc()) {
        let answer = answer(rt.alloc(), line?.as_str());
        let text = line_or_no_case(rt.alloc(), answer)?;
        println!(rt; "{text}")?;
    }
    Ok(())
}
