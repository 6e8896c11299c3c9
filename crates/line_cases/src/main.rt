//! `line_cases`: each line of stdin is a line of a script, an answer or the words of a command line, and each line of stdout what comes of it.
//!
//! The lines stand in the file `stdin` and what they must give in `stdout`, worked out by hand. `README.md` has the forms of lines.
#![tactic(auto)]

mod answers;
mod args;
mod cases;
mod causes;
mod lines;
mod named;
mod opened;
mod plain;
mod printing;
mod refusals;
mod shown;
mod telling;
mod words;

use case_lines::line_or_no_case;
use cases::answer;
use std::io;

fn main(rt: HostRuntime) -> io::Result<()> {
    for line in rt.lines(rt.alloc()) {
        let answer = answer(rt.alloc(), line?.as_str());
        let text = line_or_no_case(rt.alloc(), answer)?;
        println!(rt; "{text}")?;
    }
    Ok(())
}
