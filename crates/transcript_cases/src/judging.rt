// What is told of a transcript, as far as its lines, its numbers and its arrays go.
ghost use Rattle.std.specs.Prelude.{◌<◌, ◌^◌, ℕ, List, length};
ghost use Rattle.std.specs.List.{AllByRecursion};
ghost use Rattle.transcript_check.specs.Openings.{IsNumberedCut};
ghost use Rattle.transcript_check.specs.Cuttings.{lines_kept, IsWholeCut};
ghost use Rattle.transcript_check.specs.Keeping.{AreCommandsOf};
ghost use Rattle.transcript_check.specs.Transcript.{lines_of_scripts};
ghost use Rattle.transcript_check.specs.declared.Said.{Said as SaidOf};

use crate::fault::Fault;
use cells::List;
use std::alloc::Global;
use transcript_check::{
    Asking, Command, Cutting, Openings, Said, cut, number_events, read_lines, state_openings,
};

// The most scripts of a case.
pub(crate) const MOST: usize = 1024;

/// The line because of which the transcript isn't checked, the part that fails, or the answers by the numbers of events; where arrays
/// are asked for, those that are opened in place of the answers.
pub(crate) fn judged(
    alloc: Global,
    scripts: &[List<u8>],
    transcript: &[u8],
    arrays: bool,
) -> Result<String, Fault> {
    if scripts.len() > MOST {
        return Err(Fault::Line);
    }
    match read_lines(alloc, scripts)? {
        Asking::Checked { commands } => {
            by_cutting(alloc, scripts, transcript, commands.items(), arrays)
        }
        Asking::Unchecked { line } => not_checked(alloc, line.session, line.number),
    }
}

/// The transcript isn't checked because of this line.
pub(crate) fn not_checked(alloc: Global, session: u32, number: u64) -> Result<String, Fault> {
    Ok(format!(in alloc; "not checked, session {session} line {number}")?)
}

fn by_cutting(
    alloc: Global,
    scripts: &[List<u8>],
    transcript: &[u8],
    commands: &[Option<Command>],
    arrays: bool,
) -> Result<String, Fault>
    requires few { length scripts.now < 2 ^ 32 }
    requires commands { AreCommandsOf (lines_of_scripts 0 scripts.now) commands.now }
{
    match cut(alloc, scripts, transcript) {
        Ok(Cutting::Whole { said }) => by_numbers(alloc, scripts, said.items(), commands, arrays),
        Ok(Cutting::Broken) => part(alloc, 1),
        Ok(Cutting::CutOff { line }) => not_checked(alloc, line.session, line.number),
        Err(e) => Err(Fault::from(e)),
    }
}

/// This part fails.
pub(crate) fn part(alloc: Global, number: u32) -> Result<String, Fault> {
    Ok(format!(in alloc; "part {number} fails")?)
}

fn by_numbers(
    alloc: Global,
    scripts: &[List<u8>],
    said: &[Said],
    commands: &[Option<Command>],
    arrays: bool,
) -> Result<String, Fault>
    requires sessions { AllByRecursion (λ (s : SaidOf). s.line.session < length scripts.now) said.now }
    requires cut { (transcript : List ℕ) × IsWholeCut scripts.now transcript said.now }
    requires commands { AreCommandsOf (lines_kept scripts.now said.now) commands.now }
{
    match number_events(alloc, scripts.len(), said) {
        Ok(Some(spots)) => by_spots(alloc, scripts, said, commands, spots.items(), arrays),
        Ok(None) => part(alloc, 2),
        Err(e) => Err(Fault::from(e)),
    }
}

fn by_spots(
    alloc: Global,
    scripts: &[List<u8>],
    said: &[Said],
    commands: &[Option<Command>],
    spots: &[u64],
    arrays: bool,
) -> Result<String, Fault>
    requires numbered { IsNumberedCut scripts.now said.now spots.now }
    requires commands { AreCommandsOf (lines_kept scripts.now said.now) commands.now }
{
    if arrays {
        by_arrays(alloc, scripts, said, commands, spots)
    } else {
        numbered(alloc, said.len(), spots)
    }
}

fn numbered(alloc: Global, answers: usize, spots: &[u64]) -> Result<String, Fault> {
    Ok(format!(in alloc; "{answers} answers, events by {spots:?}")?)
}

fn by_arrays(
    alloc: Global,
    scripts: &[List<u8>],
    said: &[Said],
    commands: &[Option<Command>],
    spots: &[u64],
) -> Result<String, Fault>
    requires numbered { IsNumberedCut scripts.now said.now spots.now }
    requires commands { AreCommandsOf (lines_kept scripts.now said.now) commands.now }
{
    match state_openings(alloc, scripts, said, spots, commands)? {
        Some(openings) => opened(alloc, &openings),
        None => part(alloc, 3),
    }
}

fn opened(alloc: Global, openings: &Openings) -> Result<String, Fault> {
    let events = openings.opened.items();
    let taken = leaves(alloc, openings.takings.items())?;
    Ok(format!(in alloc; "arrays opened by {events:?}, leaves take{taken}")?)
}

// What the leaves of each line take, where it opens any.
fn leaves(alloc: Global, takings: &[List<Option<u64>>]) -> Result<String, Fault> {
    let mut text = String::new(alloc);
    for numbers in takings {
        let line = numbers.items();
        text.push_str(format!(in alloc; " {line:?}")?.as_str())?;
    }
    Ok(text)
}
