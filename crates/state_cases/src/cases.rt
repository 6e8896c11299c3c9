use crate::runs::run;
use crate::{caching, laying, placing};
use case_lines::{Fault, as_line, word};
use json_forms::parse;

/// What a line gives, as lines of text: one call for a chunk's cells, the cache or locations, or calls on a state.
pub(crate) fn answer(rt: HostRuntime, line: &str) -> Result<String, Fault> {
    let alloc = rt.alloc();
    let v = parse(alloc, line.as_bytes())?;
    if let Some(call) = word(&v, "laying") {
        return as_line(laying::answer(alloc, call, &v));
    }
    if let Some(call) = word(&v, "cache") {
        return as_line(caching::answer(alloc, call, &v));
    }
    if let Some(call) = word(&v, "place") {
        return as_line(placing::answer(alloc, call, &v));
    }
    run(rt, alloc, &v)
}
