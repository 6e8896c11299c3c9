// The lines of a session with their windows.
ghost use Rattle.std.specs.Prelude.{◌≡◌, ◌≢◌, ◌≤◌, ◌<◌, ◌+◌, ◌^◌, ℕ, IfOk, List as ListOf, Some, drop, get_or, length, take};
ghost use Rattle.std.specs.List.{slice_get};
ghost use Rattle.open_fits.specs.Walls.{AreEnds, AreLasts, ArePrintedBy};
ghost use Rattle.open_fits.specs.Windows.{window_of};
ghost use Rattle.stated_history.specs.Standings.{standing_of};
ghost use Rattle.stated_history.specs.Transcript.{Told};
ghost use Rattle.stated_history.specs.declared.Said.{Said as SaidOf};
ghost use Rattle.transcript_fits.specs.Stands.{IsBegunAt};

use crate::line_fit::ToldLine;
use crate::stand::Stand;
use open_fits::{Window, ends_of, lasts_of, window_at};
use serde_json::Value;
use stated_history::{Said, Source};
use std::alloc::{AllocError, Global};

/// The lines of a session, from a place on, and for each the last number before it and where its window ends.
#[derive(Drop)]
pub(crate) struct Frame<'f> {
    pub(crate) begin: usize,
    pub(crate) said: &'f [Said],
    pub(crate) lasts: Vec<u64>,
    pub(crate) ends: Vec<u64>,
}

impl Frame<'_> {
    /// The lines from a place on, so many of them, in a history of so many events.
    ///
    /// # Errors
    /// An allocation failed.
    pub(crate) fn of<'f>(
        alloc: Global,
        said: &'f [Said],
        begin: usize,
        many: usize,
        events: u64,
    ) -> Result<Frame<'f>, AllocError>
        requires { begin + many ≤ length said.now }
        ensures begin { IfOk result (λ frame. frame.begin ≡ begin) }
        ensures said { IfOk result (λ frame. frame.said.now ≡ take many (drop begin said.now)) }
        ensures lasts { IfOk result (λ frame. AreLasts frame.said.now frame.lasts.items) }
        ensures ends { IfOk result (λ frame. AreEnds events frame.said.now frame.ends.items) }
    {
        let own = &said[begin..begin + many];
        let lasts = lasts_of(alloc, own)?;
        let ends = ends_of(alloc, events, own)?;
        Ok(Frame {
            begin,
            said: own,
            lasts,
            ends,
        })
    }

    /// The numbers of events between which the line of this number, from 0 on, may have looked, where its session stands so.
    pub(crate) fn window(&self, stand: &Stand, at: usize) -> Window
        requires lasts { AreLasts self.now.said.now self.now.lasts.items }
        requires ends { (total : ℕ) × AreEnds total self.now.said.now self.now.ends.items }
        requires at { at < length self.now.said.now }
        requires begin { self.now.begin + at < 2 ^ 64 }
        requires begun { (told : ListOf Told) × IsBegunAt told self.now.begin (self.now.begin + at) stand.now.begun
            (standing_of stand.now.walk.standing).transaction }
        ensures { (total : ℕ) (told : ListOf Told) (t : Told) → AreEnds total self.now.said.now self.now.ends.items
            → ArePrintedBy self.now.said.now told
            → IsBegunAt told self.now.begin (self.now.begin + at) stand.now.begun
            (standing_of stand.now.walk.standing).transaction
            → window_of total (standing_of stand.now.walk.standing).transaction (take at told) (get_or told at t)
            (drop (at + 1) told)
            ≡ record { from = result.from; upto = result.upto } }
    {
        let begun = stand.begun_before(self.begin, self.begin + at);
        window_at(self.said, &self.lasts, &self.ends, at, begun)
    }
}

/// How many lines of the sessions' answers from a place on are of one session.
pub(crate) fn count_session(said: &[Said], begin: usize, session: u32) -> usize
    requires { begin ≤ length said.now }
    ensures within { begin + result ≤ length said.now }
    ensures own { (k : ℕ) (d : SaidOf) → begin ≤ k → k < begin + result → slice_get said.now k ≡ Some d
        → d.line.session ≡ session }
    ensures next { (d : SaidOf) → slice_get said.now (begin + result) ≡ Some d → d.line.session ≢ session }
{
    for place in begin..said.len() {
        if said[place].line.session != session {
            return place - begin;
        }
    }
    said.len() - begin
}
