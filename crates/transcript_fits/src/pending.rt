// What lines wait for that were judged.
ghost use Rattle.std.specs.Prelude.{◌≢◌, ◌↔◌, IfOk, IsTrue, OnOk};
ghost use Rattle.std.specs.List.{AllByRecursion};
ghost use Rattle.history.specs.History.{History};
ghost use Rattle.open_fits.specs.Sweeps.{IsMetIn, IsWaitingIn};
ghost use Rattle.transcript_fits.specs.Judges.{IsJudge, history_of};
ghost use Rattle.transcript_fits.specs.LineFits.{MayBeAsked};
ghost use Rattle.transcript_fits.specs.Pendings.{HasAdded, Holds, MayHold};
ghost use Rattle.transcript_fits.specs.declared.line_fit.LineFit.TheVariants.{Unfit};

use crate::judge::Judge;
use crate::line_fit::LineFit;
use open_fits::{OpenQuestion, Waiting, are_refused, sweep};
use std::alloc::{AllocError, Global};

/// What lines wait for: refusals of leaves, and what reads ask of the history.
#[derive(Drop)]
pub(crate) struct Pending {
    pub(crate) questions: Vec<OpenQuestion>,
    pub(crate) waiting: Vec<Waiting>,
}

impl Pending {
    /// Nothing.
    pub(crate) fn new(alloc: Global) -> Pending
        ensures may { (history : History) → MayHold history result }
        ensures holds { (history : History) → Holds history result }
    {
        Pending {
            questions: Vec::new(alloc),
            waiting: Vec::new(alloc),
        }
    }

    /// Adds what a line waits for; `false` where it doesn't fit.
    ///
    /// # Errors
    /// An allocation failed.
    pub(crate) fn add(&mut self, fit: LineFit) -> Result<bool, AllocError>
        ensures added { IfOk result (λ added. (history : History) → HasAdded history fit self.old self.new added) }
        ensures fits { IfOk result (λ added. IsTrue added → fit ≢ Unfit) }
        ensures may { OnOk result ((history : History) → MayHold history self.old → MayBeAsked history fit
            → MayHold history self.new) }
    {
        match fit {
            LineFit::Unfit => Ok(false),
            LineFit::Fits => Ok(true),
            LineFit::IfRefused { question } => {
                self.questions.push(question)?;
                Ok(true)
            }
            LineFit::IfMet { waiting } => {
                self.waiting.push(waiting)?;
                Ok(true)
            }
        }
    }

    /// Whether all that is waited for is so.
    ///
    /// # Errors
    /// An allocation failed.
    pub(crate) fn hold(&mut self, alloc: Global, judge: &Judge) -> Result<bool, AllocError>
        requires judge { IsJudge judge.now }
        requires may { MayHold (history_of judge.now) self.old }
        ensures { IfOk result (λ is. IsTrue is ↔ Holds (history_of judge.now) self.old) }
    {
        if !are_refused(alloc, judge.source.openings, &mut self.questions)? {
            return Ok(false);
        }
        is_swept(alloc, judge, &self.waiting)
    }
}

// Whether all that reads ask of the history was there.
fn is_swept(alloc: Global, judge: &Judge, waiting: &[Waiting]) -> Result<bool, AllocError>
    requires judge { IsJudge judge.now }
    requires waiting { AllByRecursion (IsWaitingIn (history_of judge.now)) waiting.now }
    ensures { IfOk result (λ is. IsTrue is ↔ AllByRecursion (IsMetIn (history_of judge.now)) waiting.now) }
{
    match sweep(alloc, judge.events, waiting)? {
        Some(met) => Ok(met),
        None => Ok(false),
    }
}
