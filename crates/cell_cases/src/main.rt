//! `cell_cases`: each line of stdin is one call on cells, or a view and what is asked of it, as JSON, and each line of stdout what it gives.
//!
//! The lines stand in the file `stdin` and what they must give in `stdout`, worked out by hand or by another program.
#![tactic(auto)]

mod cases;
mod casts;
mod held;
mod numbers;
mod read;
mod refused;
mod staging;
mod view_asking;
mod view_building;
mod view_downs;
mod view_joins;
mod views;

use case_lines::line_or_no_case;
use cases::answer;
use std::io;

fn main(rt: HostRuntime) -> io::Result<()> {
    for line in rt.lines(rt.alloc()) {
        let answer = answer(rt.alloc(), line?.as_str());
        let text = line_or_no_case(rt.alloc(), answer)?;
        println!(rt; "{text}")?;
    }
    Ok(())
}
