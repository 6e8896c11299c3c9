// Lines of scripts.
use crate::telling::{command, refusal};
use case_lines::{Fault, mount_names};
use line_forms::read_command;
use std::alloc::Global;

/// The command that a line is, or why it is none; the mounts are `memory` and `file`.
pub(crate) fn answer(alloc: Global, line: &str) -> Result<String, Fault> {
    let names = mount_names(alloc)?;
    match read_command(alloc, line.as_bytes(), &names) {
        Ok(c) => command(alloc, &c),
        Err(e) => refusal(alloc, &e),
    }
}
