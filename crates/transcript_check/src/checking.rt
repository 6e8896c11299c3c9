// From scripts and a transcript to a verdict, one part after another.
ghost use Rattle.std.specs.Prelude.{◌≡◌, ◌<◌, ◌^◌, List as ListOf, Some, IfOk, length, if◌then◌else◌};
ghost use Rattle.std.specs.FinMap as finmap;
ghost use Rattle.transcript_fits.specs.Legal.{IsLegal};
ghost use Rattle.std.specs.List.{AllByRecursion};
ghost use Rattle.transcript_fits.specs.Cuttings.{lines_kept, IsWholeCut};
ghost use Rattle.transcript_fits.specs.Keeping.{AreCommandsOf};
ghost use Rattle.transcript_fits.specs.StatedOpenings.{IsNumberedCut};
ghost use Rattle.transcript_fits.specs.Unchecked.{AreChecked};
ghost use Rattle.transcript_fits.specs.StatedHistories.{ArePutIn};
ghost use Rattle.transcript_fits.specs.Kept.{AreKeptActs, TellsLines};
ghost use Rattle.transcript_fits.specs.Walks.{IsSource, AreToldIn, outlined, TellsCommits};
ghost use Rattle.transcript_check.specs.Parts.{AreAllNumbered, AreStatedIn, IsNumberedSource};
ghost use Rattle.transcript_check.specs.declared.verdict.Verdict.TheVariants.{Yes, No};
ghost use Rattle.transcript_check.specs.Verdicts.{verdict_of};
ghost use Rattle.transcript_fits.specs.Transcript.{lines_of_scripts, mount, Told};
ghost use Rattle.transcript_fits.specs.Verdicts.{IsVerdict};
ghost use Rattle.transcript_fits.specs.Stores.{IsStoreOf};

use crate::copies::copy_events;
use crate::verdict::Verdict;
use cells::{List, Name, copy_name};
use std::alloc::{AllocError, Global};
use transcript_fits::{
    Act, Asking, Command, Commit, Cutting, Event, Said, Source, StatedLines, VersionStore,
    are_answered, commits_complete_the_history, cut, number_events, put_commits, read_lines,
    state_commits, state_openings, sweep_into,
};

/// Whether a transcript fits scripts, one of each session in order, by which part it doesn't, or because of which line it isn't checked. There
/// are fewer than 2^32 scripts, since a session's number has 32 bits.
///
/// # Errors
/// An allocation failed.
pub fn check(alloc: Global, scripts: &[List<u8>], transcript: &[u8]) -> Result<Verdict, AllocError>
    requires { length scripts.now < 2 ^ 32 }
    ensures { IfOk result (λ v. IsVerdict scripts.now transcript.now (verdict_of v)) }
{
    match read_lines(alloc, scripts) {
        Ok(Asking::Checked { commands }) => check_lines_read(alloc, scripts, transcript, commands),
        Ok(Asking::Unchecked { line }) => Ok(Verdict::not_checked(line)),
        Err(e) => Err(e),
    }
}

// The same of checked scripts, of whose lines this is kept.
fn check_lines_read(
    alloc: Global,
    scripts: &[List<u8>],
    transcript: &[u8],
    commands: List<Option<Command>>,
) -> Result<Verdict, AllocError>
    requires few { length scripts.now < 2 ^ 32 }
    requires checked { AreChecked scripts.now }
    requires commands { AreCommandsOf (lines_of_scripts 0 scripts.now) commands }
    ensures { IfOk result (λ v. IsVerdict scripts.now transcript.now (verdict_of v)) }
{
    let mut commands = commands.into_inner();
    check_text(alloc, scripts, transcript, commands.as_mut_slice())
}

fn check_text(
    alloc: Global,
    scripts: &[List<u8>],
    transcript: &[u8],
    commands: &mut [Option<Command>],
) -> Result<Verdict, AllocError>
    requires few { length scripts.now < 2 ^ 32 }
    requires checked { AreChecked scripts.now }
    requires commands { AreCommandsOf (lines_of_scripts 0 scripts.now) commands.old }
    ensures { IfOk result (λ v. IsVerdict scripts.now transcript.now (verdict_of v)) }
{
    match cut(alloc, scripts, transcript) {
        Ok(Cutting::Whole { said }) => {
            check_said(alloc, scripts, transcript, said.items(), commands)
        }
        Ok(Cutting::Broken) => Ok(Verdict::No { part: 1 }),
        Ok(Cutting::CutOff { line }) => Ok(Verdict::not_checked(line)),
        Err(e) => Err(e),
    }
}

// The same of a transcript that is cut into these answers.
fn check_said(
    alloc: Global,
    scripts: &[List<u8>],
    transcript: &[u8],
    said: &[Said],
    commands: &mut [Option<Command>],
) -> Result<Verdict, AllocError>
    requires few { length scripts.now < 2 ^ 32 }
    requires checked { AreChecked scripts.now }
    requires cut { IsWholeCut scripts.now transcript.now said.now }
    requires commands { AreCommandsOf (lines_of_scripts 0 scripts.now) commands.old }
    ensures { IfOk result (λ v. IsVerdict scripts.now transcript.now (verdict_of v)) }
{
    match number_events(alloc, scripts.len(), said) {
        Ok(Some(spots)) => check_numbers(alloc, scripts, transcript, said, spots.items(), commands),
        Ok(None) => Ok(Verdict::No { part: 2 }),
        Err(e) => Err(e),
    }
}

// The same, where the answers print the numbers of events, each of which stands at one of these spots.
fn check_numbers(
    alloc: Global,
    scripts: &[List<u8>],
    transcript: &[u8],
    said: &[Said],
    spots: &[u64],
    commands: &mut [Option<Command>],
) -> Result<Verdict, AllocError>
    requires few { length scripts.now < 2 ^ 32 }
    requires checked { AreChecked scripts.now }
    requires cut { IsWholeCut scripts.now transcript.now said.now }
    requires numbered { AreAllNumbered scripts.now transcript.now said.now }
    requires table { IsNumberedCut scripts.now said.now spots.now }
    requires commands { AreCommandsOf (lines_of_scripts 0 scripts.now) commands.old }
    ensures { IfOk result (λ v. IsVerdict scripts.now transcript.now (verdict_of v)) }
{
    let mounts = [the_mount(alloc)?];
    match state_openings(alloc, scripts, said, spots, commands) {
        Ok(Some(openings)) => {
            let source = Source {
                scripts,
                transcript,
                said,
                openings: &openings,
                mounts: &mounts,
            };
            check_source(alloc, &source, spots, commands)
        }
        Ok(None) => Ok(Verdict::No { part: 3 }),
        Err(e) => Err(e),
    }
}

// The name of the one mount.
fn the_mount(alloc: Global) -> Result<Name, AllocError>
    ensures { IfOk result (λ name. name ≡ mount) }
{
    copy_name(alloc, "memory")
}

// The same of a source.
fn check_source(
    alloc: Global,
    source: &Source,
    spots: &[u64],
    commands: &mut [Option<Command>],
) -> Result<Verdict, AllocError>
    requires source { IsNumberedSource source.now spots.now }
    requires commands { AreCommandsOf (lines_kept source.now.scripts.now source.now.said.now) commands.old }
    ensures { IfOk result (λ v. IsVerdict source.now.scripts.now source.now.transcript.now (verdict_of v)) }
{
    commits_complete_the_history();
    match state_commits(alloc, source, commands) {
        Ok(Some(lines)) => check_lines(alloc, source, spots, lines),
        Ok(None) => Ok(Verdict::No { part: 3 }),
        Err(e) => Err(e),
    }
}

// The same, where its lines state this.
fn check_lines(
    alloc: Global,
    source: &Source,
    spots: &[u64],
    lines: StatedLines,
) -> Result<Verdict, AllocError>
    requires source { IsNumberedSource source.now spots.now }
    requires lines { TellsLines source.now (Some lines) }
    ensures { IfOk result (λ v. IsVerdict source.now.scripts.now source.now.transcript.now (verdict_of v)) }
{
    let commits = lines.commits.items();
    check_commits(alloc, source, spots, commits, lines.acts.items())
}

// The same, where these are the commits of its lines, and this is kept of what they do.
fn check_commits(
    alloc: Global,
    source: &Source,
    spots: &[u64],
    commits: &[Option<Commit>],
    acts: &[Option<Act>],
) -> Result<Verdict, AllocError>
    requires source { IsNumberedSource source.now spots.now }
    requires commits { (told : ListOf Told) → AreToldIn source.now told
        → TellsCommits (outlined source.now) told (Some commits.now) }
    requires acts { AreKeptActs source.now acts.now }
    ensures { IfOk result (λ v. IsVerdict source.now.scripts.now source.now.transcript.now (verdict_of v)) }
{
    match stated_events(alloc, source, spots, commits) {
        Ok(events) => check_events(alloc, source, acts, events.as_slice()),
        Err(e) => Err(e),
    }
}

// The history that the transcript states, legal or not, where these are the commits of its lines.
fn stated_events(
    alloc: Global,
    source: &Source,
    spots: &[u64],
    commits: &[Option<Commit>],
) -> Result<Vec<Event>, AllocError>
    requires source { IsNumberedSource source.now spots.now }
    requires commits { (told : ListOf Told) → AreToldIn source.now told
        → TellsCommits (outlined source.now) told (Some commits.now) }
    ensures { IfOk result (λ events. AreStatedIn source.now events.items) }
{
    commits_complete_the_history();
    match copy_events(alloc, source.openings.events.items()) {
        Ok(events) => put_all(events, spots, commits),
        Err(e) => Err(e),
    }
}

// The events of an outline with the commits of all lines.
fn put_all(
    mut events: Vec<Event>,
    spots: &[u64],
    commits: &[Option<Commit>],
) -> Result<Vec<Event>, AllocError>
    requires count { length spots.now ≡ length events.items }
    requires spots { AllByRecursion (λ spot. spot < length commits.now) spots.now }
    ensures { IfOk result (λ all. ArePutIn events.items all.items commits.now spots.now) }
{
    match put_commits(events.as_mut_slice(), spots, commits) {
        Ok(()) => Ok(events),
        Err(e) => Err(e),
    }
}

// The same, where the transcript states these events.
fn check_events(
    alloc: Global,
    source: &Source,
    acts: &[Option<Act>],
    events: &[Event],
) -> Result<Verdict, AllocError>
    requires few { length source.now.scripts.now < 2 ^ 32 }
    requires source { IsSource source.now }
    requires acts { AreKeptActs source.now acts.now }
    requires stated { AreStatedIn source.now events.now }
    ensures { IfOk result (λ v. IsVerdict source.now.scripts.now source.now.transcript.now (verdict_of v)) }
{
    let mut store = VersionStore::new(alloc);
    match sweep_into(alloc, &mut store, events, &[]) {
        Ok(Some(_)) => check_answers(alloc, source, acts, events, &store),
        Ok(None) => Ok(Verdict::No { part: 3 }),
        Err(e) => Err(e),
    }
}

// The same, where they may have happened, and this is kept of them.
fn check_answers(
    alloc: Global,
    source: &Source,
    acts: &[Option<Act>],
    events: &[Event],
    store: &VersionStore,
) -> Result<Verdict, AllocError>
    requires few { length source.now.scripts.now < 2 ^ 32 }
    requires source { IsSource source.now }
    requires acts { AreKeptActs source.now acts.now }
    requires stated { AreStatedIn source.now events.now }
    requires legal { IsLegal finmap.empty events.now }
    requires kept { IsStoreOf events.now store.now }
    ensures { IfOk result (λ v. IsVerdict source.now.scripts.now source.now.transcript.now (verdict_of v)) }
{
    match are_answered(alloc, source, acts, events, store) {
        Ok(answered) => Ok(verdict_by(answered, events)),
        Err(e) => Err(e),
    }
}

// The verdict on answers over events that may have happened.
fn verdict_by(is: bool, events: &[Event]) -> Verdict
    ensures { result ≡ (if is then Yes (length events.now) else No 4) }
{
    if is {
        Verdict::Yes {
            events: events.len() as u64,
        }
    } else {
        Verdict::No { part: 4 }
    }
}
