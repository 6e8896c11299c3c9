//! `bench WHAT WORD..`: does what is timed so many times, and prints what comes of it; further WHATs with their words may follow.
//!
//! `README.md` has the WHATs: views cut at chunk edges, chunks decoded and encoded, targets of stacks, long lines, commits. It ends with 2 where
//! the words are none of these, with 1 where a commit is refused, and with 3, 4 or 5 where reading, printing or memory fails.
#![tactic(auto)]

mod chunks;
mod committing;
mod fault;
mod formats;
mod lines;
mod opening;
mod stacks;
mod views;
mod writable;

use fault::Fault;
use std::env::Args;
use std::process::ExitCode;
use std::sync::Wait;
use std::{env, io};

fn main(rt: HostRuntime) -> ExitCode {
    let Ok(mut words) = env::args(&rt) else {
        return ExitCode::from(5);
    };
    words.next();
    match time_all(rt, &rt, &mut words) {
        Ok(()) => ExitCode::from(0),
        Err(status) => ExitCode::from(status),
    }
}

fn time_all<R: Wait>(rt: HostRuntime, wait: &R, words: &mut Args) -> Result<(), u8> {
    if !time_next(rt, wait, words)? {
        return Err(2);
    }
    for _ in 0..u32::MAX {
        if !time_next(rt, wait, words)? {
            break;
        }
    }
    Ok(())
}

// Whether there was a further WHAT.
fn time_next<R: Wait>(rt: HostRuntime, wait: &R, words: &mut Args) -> Result<bool, u8> {
    match words.next() {
        Some(what) => {
            time(rt, wait, &what, words)?;
            Ok(true)
        }
        None => Ok(false),
    }
}

fn time<R: Wait>(rt: HostRuntime, wait: &R, what: &str, words: &mut Args) -> Result<(), u8> {
    match what {
        "views" => time_views(rt, &word(words)?, words),
        "chunks" => time_chunks(rt, &word(words)?, words),
        "stacks" => time_stacks(rt, &word(words)?, words),
        "lines" => time_lines(rt, &word(words)?, words),
        "commits" => time_commits(rt, wait, words),
        _ => Err(2),
    }
}

fn word(words: &mut Args) -> Result<String, u8> {
    words.next().ok_or(2)
}

fn count(words: &mut Args) -> Result<u32, u8> {
    match words.next() {
        Some(word) => word.parse::<u32>().map_err(|_| 2),
        None => Err(2),
    }
}

fn printed(answer: io::Result<()>) -> Result<(), u8> {
    match answer {
        Ok(()) => Ok(()),
        Err(_) => Err(4),
    }
}

fn time_views(rt: HostRuntime, view: &str, words: &mut Args) -> Result<(), u8> {
    match views::bench(rt.alloc(), view, count(words)?) {
        Ok(Some((chunks, runs))) => printed(println!(rt; "{view}: {chunks} chunks, {runs} runs")),
        Ok(None) => Err(2),
        Err(_) => Err(5),
    }
}

fn time_chunks(rt: HostRuntime, format: &str, words: &mut Args) -> Result<(), u8> {
    let act = word(words)?;
    time_act(rt, format, &act, words)
}

fn time_act(rt: HostRuntime, format: &str, act: &str, words: &mut Args) -> Result<(), u8> {
    match chunks::bench(rt.alloc(), format, act, count(words)?) {
        Ok(Some(sum)) => printed(println!(rt; "{format} {act}: {sum}")),
        Ok(None) => Err(2),
        Err(_) => Err(5),
    }
}

fn time_stacks(rt: HostRuntime, view: &str, words: &mut Args) -> Result<(), u8> {
    match stacks::bench(rt.alloc(), view, count(words)?) {
        Ok(Some(leaf)) => printed(println!(rt; "{view}: the last cell is in leaf {leaf}")),
        Ok(None) => Err(2),
        Err(_) => Err(5),
    }
}

fn time_lines(rt: HostRuntime, act: &str, words: &mut Args) -> Result<(), u8> {
    let times = count(words)?;
    for line in rt.lines(rt.alloc()) {
        match line {
            Ok(line) => time_line(rt, act, &line, times)?,
            Err(_) => return Err(3),
        }
    }
    Ok(())
}

fn time_line(rt: HostRuntime, act: &str, line: &str, times: u32) -> Result<(), u8> {
    match lines::bench(rt.alloc(), act, line.as_bytes(), times) {
        Ok(Some(text)) => printed(println!(rt; "{text}")),
        Ok(None) => Err(2),
        Err(_) => Err(5),
    }
}

fn time_commits<R: Wait>(rt: HostRuntime, wait: &R, words: &mut Args) -> Result<(), u8> {
    let before = count(words)?;
    match committing::bench(wait, rt.alloc(), before, count(words)?) {
        Ok(event) => printed(println!(rt; "the last event is {event}")),
        Err(Fault::Refused) => Err(1),
        Err(Fault::Memory) => Err(5),
    }
}
