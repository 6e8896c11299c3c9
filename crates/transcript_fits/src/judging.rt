// Whether each line of a transcript is answered as it may be.
ghost use Rattle.std.specs.Prelude.{◌≡◌, ◌≢◌, ◌↔◌, ◌<◌, ◌+◌, ◌^◌, ℕ, Err, IfOk, IsTrue, List as ListOf, OnOk, Some, length};
ghost use Rattle.open_fits.specs.Fitting.{IsAnswered};
ghost use Rattle.stated_history.specs.SaidAnswers.{data_said};
ghost use Rattle.stated_history.specs.Spans.{IsSpanOf};
ghost use Rattle.stated_history.specs.ToldNumbers.{told_of};
ghost use Rattle.stated_history.specs.Transcript.{Told};
ghost use Rattle.stated_history.specs.Walks.{AreToldIn};
ghost use Rattle.transcript_fits.specs.Frames.{IsFrameOf};
ghost use Rattle.transcript_fits.specs.Judges.{IsJudge, IsJudgedSource, history_of};
ghost use Rattle.transcript_fits.specs.LineFits.{IsLineFit, MayBeAsked};
ghost use Rattle.transcript_fits.specs.Pendings.{IsSessionJudged, MayHold};
ghost use Rattle.transcript_fits.specs.Sessions.{IsFittingAt, IsSessionAt};
ghost use Rattle.transcript_fits.specs.Stands.{HasPassed, IsFitAt, IsLineAt, IsLineKept, IsPassing, IsStandAt, MayGoOnAt};
ghost use Rattle.transcript_fits.specs.declared.line_fit.LineFit.TheVariants.{Unfit};

use crate::fitting::fit_answer;
use crate::frames::{Frame, count_session};
use crate::judge::{Judge, counts_of, stored_of};
use crate::line_fit::{LineFit, ToldLine};
use crate::pending::Pending;
use crate::stand::Stand;
use history::Event;
use open_fits::{VersionStore, Window};
use stated_history::{Act, Said, SaidAnswer, Source, answer_said};
use std::alloc::{AllocError, Global};

/// Whether each line is answered as it may be, over the events that the transcript states, where this is kept of what each line does. The time
/// is that of a walk over the lines, of the cells of views, and of a sweep over the events.
///
/// # Errors
/// An allocation failed.
pub fn are_answered(
    alloc: Global,
    source: &Source,
    acts: &[Option<Act>],
    events: &[Event],
    store: &VersionStore,
) -> Result<bool, AllocError>
    requires { IsJudgedSource source.now acts.now events.now store.now }
    ensures { IfOk result (λ is. (told : ListOf Told) → AreToldIn source.now told
        → IsTrue is ↔ IsAnswered told events.now) }
{
    let counts = counts_of(alloc, events)?;
    let stored = stored_of(alloc, source.openings)?;
    let judge = Judge {
        source,
        acts,
        events,
        store,
        counts: &counts,
        stored: &stored,
    };
    judge_sessions(alloc, &judge)
}

// Judges the lines of all sessions, one after another.
fn judge_sessions(alloc: Global, judge: &Judge) -> Result<bool, AllocError>
    requires judge { IsJudge judge.now }
    requires few { length judge.now.source.now.scripts.now < 2 ^ 32 }
    ensures { IfOk result (λ is. (told : ListOf Told) → AreToldIn judge.now.source.now told
        → IsTrue is ↔ IsAnswered told (history_of judge.now)) }
{
    let mut pending = Pending::new(alloc);
    let mut place = 0;
    for session in 0..judge.source.scripts.len() {
        let many = count_session(judge.source.said, place, session as u32);
        if !judge_session(alloc, judge, &mut pending, session as u32, place, many)? {
            return Ok(false);
        }
        place += many;
    }
    pending.hold(alloc, judge)
}

// Judges the lines of a session, so many from a place on; `false` where one doesn't fit.
fn judge_session(
    alloc: Global,
    judge: &Judge,
    pending: &mut Pending,
    session: u32,
    begin: usize,
    many: usize,
) -> Result<bool, AllocError>
    requires judge { IsJudge judge.now }
    requires session { IsSessionAt judge.now.source.now.said.now session begin many }
    requires may { MayHold (history_of judge.now) pending.old }
    ensures judged { IfOk result (IsSessionJudged judge.now session pending.old pending.new) }
    ensures may { OnOk result (MayHold (history_of judge.now) pending.new) }
{
    let frame = Frame::of(
        alloc,
        judge.source.said,
        begin,
        many,
        judge.events.len() as u64,
    )?;
    let mut stand = Stand::first(alloc, session);
    for at in 0..many {
        let fit = judge_line(alloc, judge, &frame, &mut stand, at)?;
        if !pending.add(fit)? {
            return Ok(false);
        }
    }
    Ok(true)
}

// Judges the line of a session of this number, from 0 on, and goes on behind it where it fits.
fn judge_line(
    alloc: Global,
    judge: &Judge,
    frame: &Frame,
    stand: &mut Stand,
    at: usize,
) -> Result<LineFit, AllocError>
    requires judge { IsJudge judge.now }
    requires frame { (session : ℕ) × (begin : ℕ) × (many : ℕ) × IsFrameOf judge.now session begin many frame.now
        × (at < many)
        × IsStandAt judge.now session begin at stand.old }
    ensures fits { IfOk result (λ fit. (session : ℕ) (begin : ℕ) (many : ℕ) (told : ListOf Told)
        → IsFrameOf judge.now session begin many frame.now → at < many → IsStandAt judge.now session begin at stand.old
        → AreToldIn judge.now.source.now told
        → IsLineFit (history_of judge.now) (IsFittingAt (history_of judge.now) (told_of session told) at) fit) }
    ensures asked { IfOk result (MayBeAsked (history_of judge.now)) }
    ensures stand { IfOk result (λ fit. (session : ℕ) (begin : ℕ) (many : ℕ)
        → IsFrameOf judge.now session begin many frame.now → at < many → IsStandAt judge.now session begin at stand.old
        → fit ≢ Unfit → IsStandAt judge.now session begin (at + 1) stand.new) }
{
    let place = frame.begin + at;
    let answer = answer_said(judge.source, &judge.source.said[place]);
    let window = frame.window(stand, at);
    stand.upto = window.upto;
    let line = told_line(
        &judge.source.said[place],
        judge.source.transcript,
        window,
        &answer,
    );
    judge_told(alloc, judge, stand, line, place)
}

// A line as it is told, of which this is kept, in a transcript.
fn told_line<'l>(
    said: &'l Said,
    transcript: &'l [u8],
    window: Window,
    answer: &'l SaidAnswer<'l>,
) -> ToldLine<'l>
    requires { IsSpanOf transcript.now said.now.text }
    ensures { IsLineKept transcript.now said.now window (data_said answer.now) result }
{
    ToldLine {
        owner: said.line.session,
        line: said.line.number,
        window,
        numbers: &said.numbers,
        text: &transcript[said.text.from..said.text.upto],
        answer,
    }
}

// The same of the line as it is told.
fn judge_told(
    alloc: Global,
    judge: &Judge,
    stand: &mut Stand,
    line: ToldLine,
    place: usize,
) -> Result<LineFit, AllocError>
    requires judge { IsJudge judge.now }
    requires line { IsLineAt judge.now stand.old line place }
    ensures fits { IfOk result (IsFitAt judge.now stand.old line.entry place) }
    ensures asked { IfOk result (MayBeAsked (history_of judge.now)) }
    ensures on { IfOk result (MayGoOnAt judge.now stand.old line.entry place) }
    ensures passed { IfOk result (λ fit. fit ≢ Unfit → HasPassed judge.now stand.old stand.new line.entry place) }
{
    match fit_answer(alloc, judge, stand, line, place) {
        Ok(LineFit::Unfit) => Ok(LineFit::Unfit),
        Ok(fit) => pass_fit(alloc, judge, stand, line, place, fit),
        Err(e) => Err(e),
    }
}

fn pass_fit(
    alloc: Global,
    judge: &Judge,
    stand: &mut Stand,
    line: ToldLine,
    place: usize,
    fit: LineFit,
) -> Result<LineFit, AllocError>
    requires judge { IsJudge judge.now }
    requires passing { IsPassing judge.now stand.old line place }
    ensures same { IfOk result (λ passed. passed ≡ fit) }
    ensures passed { OnOk result (HasPassed judge.now stand.old stand.new line.entry place) }
{
    match stand.pass(alloc, judge, line, place) {
        Ok(()) => Ok(fit),
        Err(e) => fail(fit, e),
    }
}

fn fail(_: LineFit, e: AllocError) -> Result<LineFit, AllocError>
    ensures { result ≡ Err e }
{
    Err(e)
}
