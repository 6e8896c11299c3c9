//! `tensor_run [--root DIR] [--workers N] [--cache CELLS] FILE..`: runs scripts of JSON lines, each in a session of its own, and prints the
//! answers. With `--make NUMBER` in place of files it makes the scripts, and prints one line about the run.
//!
//! `tensor_run check TRANSCRIPT FILE..`: tells in one line whether such an output is a legal history of the scripts over one memory store that
//! starts empty. A script that is called `check` is given as `./check`.
//!
//! All that it does is to make the real ends, to call `run` or `check_run`, and to say on standard error in one line each what went wrong.
#![tactic(auto)]

mod checks;
mod runs;
mod said;

use checks::check_words;
use runs::run_words;
use said::say;
use std::env;
use std::io::ErrorKind;
use std::process::ExitCode;
use std::rt::Env;
use std::sync::Wait;
use std::thread::Threads;

fn main(rt: HostRuntime) -> ExitCode {
    let status = match words(&rt) {
        Ok(words) => obey(rt, &rt, &words),
        Err(status) => say(&rt, status, None),
    };
    ExitCode::from(status)
}

// Checks a transcript where the first word is `check`, else runs scripts. Tells the status.
fn obey<R: Threads + Wait + Sync>(host: HostRuntime, rt: &R, words: &[String]) -> u8 {
    match words {
        [first, rest @ ..] if first.as_str() == "check" => check_words(host, rest),
        _ => run_words(host, rt, words),
    }
}

// The words behind the program's name; else the status: 2 where a word isn't UTF-8, 5 for want of memory.
fn words(rt: &(impl Env + AllocGlobal)) -> Result<Vec<String>, u8> {
    let mut words = match env::args(rt) {
        Ok(words) => words,
        Err(e) if e.kind() == ErrorKind::InvalidData => return Err(2),
        Err(_) => return Err(5),
    };
    words.next();
    match words.collect::<Vec<String>>(rt.alloc()) {
        Ok(words) => Ok(words),
        Err(_) => Err(5),
    }
}
