// The commits that the lines of a transcript state.
ghost use Rattle.std.specs.Prelude.{◌≡◌, ◌<◌, ◌∷◌, ◌++◌, [], false, Some, None, Ok, Err, IfOk, OnOk, IsTrue, length, if◌then◌else◌};
ghost use Rattle.indexmap.specs.IndexMap.{get_by_text};
ghost use Rattle.json_forms.specs.Bytes.{data_of};
ghost use Rattle.stated_acts.specs.Bound.{AreViews};
ghost use Rattle.serde_json.specs.Data.{Data};
ghost use Rattle.stack_driver.specs.Conditions.{IsView};
ghost use Rattle.stack_driver.specs.declared.view.View.{View as ViewOf};
ghost use Rattle.stated_acts.specs.Acts.{IsActAt, IsSoundAct};
ghost use Rattle.stated_acts.specs.SaidAnswers.{data_said};
ghost use Rattle.stated_acts.specs.Standings.{standing_of, IsSoundStanding};
ghost use Rattle.stated_history.specs.Kept.{HasKept, HoldsAnswer, IsKeptAt, TellsLines};
ghost use Rattle.stated_acts.specs.Cuttings.{lines_kept};
ghost use Rattle.stated_acts.specs.Keeping.{data_kept, AreCommandsOf, IsCommandOf};
ghost use Rattle.stated_history.specs.Walks.{IsSource, outlined, IsReached, IsNotPast, IsInSession};
ghost use Rattle.stated_history.specs.Walks.{IsAnswerAt, IsFacingLine, IsGoneOnAt, IsReadAlone, TellsAt};
ghost use Rattle.stated_history.specs.Walks.{IsKeptOutline, IsTakenBy, IsViewTaken, line_said, takings_at};
ghost use Rattle.stated_acts.specs.Spans.{line_at, IsPlaced, IsSpanOf};
ghost use Rattle.stated_acts.specs.Transcript.{mount, asked_by};
ghost use Rattle.stated_acts.specs.Unchecked.{is_unchecked};

use crate::kept::{StatedLines, keep};
use crate::putting::Commit;
use crate::walk::Walk;
use cells::{List, Name};
use stack_driver::View;
use stated_acts::{
    Act, Command, KeptAnswer, Openings, Said, SaidAnswer, Standing, act_of, bytes_of, may_print,
    view_opened,
};
use std::alloc::{AllocError, Global};

/// A transcript that is cut into these answers to the lines of scripts, and the arrays that it states.
#[derive(Clone, Copy)]
pub struct Source<'s> {
    pub scripts: &'s [List<u8>],
    pub transcript: &'s [u8],
    pub said: &'s [Said],
    pub openings: &'s Openings,
    /// The name of the one mount.
    pub mounts: &'s [Name],
}

/// The commit of each line that prints a number of one, and what is kept of what each does; `None` where a line prints other
/// numbers than those of the events that it states. What is kept of the lines is taken.
///
/// # Errors
/// An allocation failed.
pub fn state_commits(
    alloc: Global,
    source: &Source,
    commands: &mut [Option<Command>],
) -> Result<Option<StatedLines>, AllocError>
    requires source { IsSource source.now }
    requires commands { AreCommandsOf (lines_kept source.now.scripts.now source.now.said.now) commands.old }
    ensures { IfOk result (TellsLines source.now) }
{
    let mut commits = Vec::with_capacity(alloc, source.said.len())?;
    let mut acts = Vec::with_capacity(alloc, source.said.len())?;
    let mut walk = Walk::first(alloc);
    for place in 0..source.said.len() {
        let command = commands[place].take();
        match state_line(alloc, &mut walk, source, place, command, &mut acts)? {
            Some(commit) => commits.push(commit)?,
            None => return Ok(None),
        }
    }
    Ok(Some(StatedLines {
        commits: List::wrap(commits),
        acts: List::wrap(acts),
    }))
}

// The same of the line at a place, behind those before it.
fn state_line(
    alloc: Global,
    walk: &mut Walk,
    source: &Source,
    place: usize,
    command: Option<Command>,
    acts: &mut Vec<Option<Act>>,
) -> Result<Option<Option<Commit>>, AllocError>
    requires source { IsSource source.now }
    requires place { place < length source.now.said.now }
    requires command { IsKeptAt source.now place command }
    requires sound { IsSoundStanding walk.old.standing }
    requires reached { IsReached source.now place walk.old }
    requires order { IsNotPast source.now place walk.old }
    ensures next { IfOk result (TellsAt source.now place walk.new) }
    ensures acts { OnOk result (HasKept source.now place acts.old.items acts.new.items) }
    ensures session { OnOk result (IsInSession source.now place walk.new) }
    ensures sound { OnOk result (IsSoundStanding walk.new.standing) }
{
    let said = &source.said[place];
    walk.turn_to(alloc, said.line.session);
    match act_said(alloc, &walk.standing, source, said, command) {
        Ok(act) => state_by(alloc, walk, source, place, act, acts),
        Err(e) => Err(e),
    }
}

// The same by what the line does, where the walk stands before it. A read outside of a transaction is kept itself, any other act as a copy.
fn state_by(
    alloc: Global,
    walk: &mut Walk,
    source: &Source,
    place: usize,
    act: Act,
    acts: &mut Vec<Option<Act>>,
) -> Result<Option<Option<Commit>>, AllocError>
    requires source { IsSource source.now }
    requires place { place < length source.now.said.now }
    requires sound { IsSoundStanding walk.old.standing }
    requires act { IsSoundAct act }
    requires facing { IsFacingLine source.now place walk.old act }
    ensures next { IfOk result (TellsAt source.now place walk.new) }
    ensures acts { OnOk result (HasKept source.now place acts.old.items acts.new.items) }
    ensures session { OnOk result (walk.new.session ≡ walk.old.session) }
    ensures sound { OnOk result (IsSoundStanding walk.new.standing) }
{
    if is_read_alone(&act, &walk.standing) {
        let may = may_print(&act, false, &source.said[place].numbers);
        state_read(acts, act, may)
    } else {
        match keep(alloc, acts, &act) {
            Ok(()) => state_answered(alloc, walk, source, place, act),
            Err(e) => lose(act, e),
        }
    }
}

// Whether this is a read outside of a transaction, which changes nothing of its session.
fn is_read_alone(act: &Act, standing: &Standing) -> bool
    ensures { IsTrue result → IsReadAlone act.now (standing_of standing.now).transaction }
{
    match act {
        Act::Reads { .. } => standing.transaction.is_none(),
        Act::Refused { .. } => false,
        Act::Opens { .. } => false,
        Act::Binds { .. } => false,
        Act::Writes { .. } => false,
        Act::Begins { .. } => false,
        Act::Commits => false,
        Act::Aborts => false,
    }
}

// Keeps such a read. Its line states no commit, where it may print what it prints.
fn state_read(
    acts: &mut Vec<Option<Act>>,
    act: Act,
    may: bool,
) -> Result<Option<Option<Commit>>, AllocError>
    ensures next { IfOk result (λ next. next ≡ (if may then Some None else None)) }
    ensures acts { OnOk result (acts.new.items ≡ acts.old.items ++ Some act ∷ []) }
{
    acts.push(Some(act))?;
    if may { Ok(Some(None)) } else { Ok(None) }
}

fn lose(_: Act, e: AllocError) -> Result<Option<Option<Commit>>, AllocError>
    ensures { result ≡ Err e }
{
    Err(e)
}

// The same of any act, where it is kept already what the line does.
fn state_answered(
    alloc: Global,
    walk: &mut Walk,
    source: &Source,
    place: usize,
    act: Act,
) -> Result<Option<Option<Commit>>, AllocError>
    requires source { IsSource source.now }
    requires place { place < length source.now.said.now }
    requires sound { IsSoundStanding walk.old.standing }
    requires act { IsSoundAct act }
    requires facing { IsFacingLine source.now place walk.old act }
    ensures next { IfOk result (TellsAt source.now place walk.new) }
    ensures session { OnOk result (walk.new.session ≡ walk.old.session) }
    ensures sound { OnOk result (IsSoundStanding walk.new.standing) }
{
    let answer = answer_said(source, &source.said[place]);
    state_act(alloc, walk, source, place, act, &answer)
}

// The same by its answer, too.
fn state_act(
    alloc: Global,
    walk: &mut Walk,
    source: &Source,
    place: usize,
    act: Act,
    answer: &SaidAnswer,
) -> Result<Option<Option<Commit>>, AllocError>
    requires source { IsSource source.now }
    requires place { place < length source.now.said.now }
    requires sound { IsSoundStanding walk.old.standing }
    requires act { IsSoundAct act }
    requires facing { IsFacingLine source.now place walk.old act }
    requires answer { IsAnswerAt source.now place (data_said answer.now) }
    ensures next { IfOk result (TellsAt source.now place walk.new) }
    ensures session { OnOk result (walk.new.session ≡ walk.old.session) }
    ensures sound { OnOk result (IsSoundStanding walk.new.standing) }
{
    let stands = walk.standing.transaction.is_some();
    if may_print(&act, stands, &source.said[place].numbers) {
        match pass_line(alloc, walk, source, place, act, answer) {
            Ok(commit) => Ok(Some(commit)),
            Err(e) => Err(e),
        }
    } else {
        state_none(act)
    }
}

// Other numbers are printed than those of events of this act.
fn state_none(_: Act) -> Result<Option<Option<Commit>>, AllocError>
    ensures { result ≡ Ok None }
{
    Ok(None)
}

/// Goes on behind the line at a place, before which the walk stands and which does this and was answered so. Gives the line's
/// commit, if it prints a number of one.
///
/// # Errors
/// An allocation failed; the walk is of no use then.
pub fn pass_line(
    alloc: Global,
    walk: &mut Walk,
    source: &Source,
    place: usize,
    act: Act,
    answer: &SaidAnswer,
) -> Result<Option<Commit>, AllocError>
    requires source { IsSource source.now }
    requires place { place < length source.now.said.now }
    requires sound { IsSoundStanding walk.old.standing }
    requires act { IsSoundAct act }
    requires facing { IsFacingLine source.now place walk.old act }
    requires answer { IsAnswerAt source.now place (data_said answer.now) }
    ensures gone { IfOk result (IsGoneOnAt source.now place walk.new) }
    ensures session { OnOk result (walk.new.session ≡ walk.old.session) }
    ensures sound { OnOk result (IsSoundStanding walk.new.standing) }
{
    match view_said(alloc, &act, source, place) {
        Ok(opened) => walk.go_on(alloc, &source.said[place], act, answer, opened),
        Err(e) => fail(act, e),
    }
}

fn fail(_: Act, e: AllocError) -> Result<Option<Commit>, AllocError>
    ensures { result ≡ Err e }
{
    Err(e)
}

/// What a line does for its session, which stands so before it, where this is kept of the line.
///
/// # Errors
/// An allocation failed.
pub fn act_said(
    alloc: Global,
    standing: &Standing,
    source: &Source,
    said: &Said,
    kept: Option<Command>,
) -> Result<Act, AllocError>
    requires mounts { source.now.mounts.now ≡ mount ∷ [] }
    requires views { AreViews (get_by_text standing.now.names) }
    requires placed { IsPlaced source.now.scripts.now said.now.line }
    requires kept { IsCommandOf (line_at source.now.scripts.now said.now.line) kept }
    requires checked { is_unchecked (line_at source.now.scripts.now said.now.line) ≡ false }
    ensures act { IfOk result (IsActAt (standing_of standing.now)
        (asked_by (line_at source.now.scripts.now said.now.line))) }
    ensures sound { IfOk result IsSoundAct }
{
    act_of(
        alloc,
        standing,
        source.mounts,
        bytes_of(source.scripts, said.line),
        kept,
    )
}

/// The answer to a line: as it is kept, or its text without the LF at the end, which reads as one.
pub fn answer_said<'s>(source: &Source<'s>, said: &'s Said) -> SaidAnswer<'s>
    requires within { IsSpanOf source.now.transcript.now said.now.text }
    requires some { said.now.text.from < said.now.text.upto }
    requires kept { HoldsAnswer source.now.transcript.now said.now }
    requires reads { (d : Data) × (data_of (line_said said.now source.now.transcript.now) ≡ Some d) }
    ensures { data_of (line_said said.now source.now.transcript.now) ≡ Some (data_said result) }
{
    match &said.answer {
        Some(kept) => kept_said(kept),
        None => SaidAnswer::Text {
            bytes: &source.transcript[said.text.from..said.text.upto - 1],
        },
    }
}

fn kept_said<'s>(kept: &'s KeptAnswer) -> SaidAnswer<'s>
    ensures { data_said result ≡ data_kept kept.now }
{
    match kept {
        KeptAnswer::Whole { value } => SaidAnswer::Kept { answer: value },
        KeptAnswer::Cell { line, word } => SaidAnswer::Cell {
            line: *line,
            word: *word,
        },
    }
}

// The view that a line of this act opens, if it opens one.
fn view_said(
    alloc: Global,
    act: &Act,
    source: &Source,
    place: usize,
) -> Result<Option<View>, AllocError>
    requires sound { IsSoundAct act.now }
    requires place { place < length source.now.openings.now.takings }
    requires kept { IsKeptOutline source.now.openings.now }
    requires taken { IsTakenBy (outlined source.now) act.now (takings_at source.now place) }
    ensures view { IfOk result (IsViewTaken (outlined source.now) act.now (takings_at source.now place)) }
    ensures sound { IfOk result (λ o. (v : ViewOf) → o ≡ Some v → IsView v) }
{
    match act {
        Act::Opens { plan, .. } => {
            let takings = source.openings.takings.items()[place].items();
            view_opened(alloc, plan, takings, source.openings)
        }
        Act::Refused { .. } => Ok(None),
        Act::Binds { .. } => Ok(None),
        Act::Reads { .. } => Ok(None),
        Act::Writes { .. } => Ok(None),
        Act::Begins { .. } => Ok(None),
        Act::Commits => Ok(None),
        Act::Aborts => Ok(None),
    }
}
