// How a session stands before a line that is judged.
ghost use Rattle.std.specs.Prelude.{◌≡◌, ◌≢◌, ◌≤◌, ◌<◌, ◌+◌, ◌-◌, [], ℕ, IsTrue, List as ListOf, None, Option, Some, OnOk, codes, false, length, take, true};
ghost use Rattle.history.specs.Acts.{Asked};
ghost use Rattle.history.specs.Commit.{Transaction};
ghost use Rattle.history.specs.History.{History};
ghost use Rattle.open_fits.specs.Windows.{lines_before};
ghost use Rattle.stated_history.specs.Acts.{IsActAt, IsSoundAct};
ghost use Rattle.stated_history.specs.SaidAnswers.{data_said};
ghost use Rattle.stated_history.specs.Standings.{IsSoundStanding, standing_of};
ghost use Rattle.stated_history.specs.ToldStandings.{first_standing};
ghost use Rattle.stated_history.specs.Transcript.{Told};
ghost use Rattle.stated_history.specs.Walks.{IsAnswerAt};
ghost use Rattle.transcript_fits.specs.Judges.{IsJudge, history_of};
ghost use Rattle.transcript_fits.specs.LineFits.{answer_of_line};
ghost use Rattle.transcript_fits.specs.Stands.{AreOwnBehind, HasPassed, HasReadOf, HasWalked, HasWrittenOf, IsBegunAt, IsFacingOf, IsFollowing, IsLineTold, IsOwnOf, IsPassing, IsReadingOf, IsWalkAt, IsWritingOf};

use crate::acts::{act_before, is_read_alone};
use crate::judge::Judge;
use crate::line_fit::ToldLine;
use cells::WrittenWords;
use open_fits::Own;
use stack_driver::View;
use stated_history::{Act, SaidAnswer, Walk, pass_line};
use std::alloc::{AllocError, Global};

/// A session before one of its lines: how it stands, what its transaction has by its operations, the place of the line that began the
/// transaction, and the last number of an event at which the line may have looked.
#[derive(Drop)]
pub(crate) struct Stand {
    pub(crate) walk: Walk,
    pub(crate) own: Own,
    pub(crate) begun: usize,
    pub(crate) upto: u64,
}

impl Stand {
    /// Before the first line of a session.
    pub(crate) fn first(alloc: Global, session: u32) -> Stand
        ensures session { result.walk.session ≡ session }
        ensures stands { standing_of result.walk.standing ≡ first_standing }
        ensures sound { IsSoundStanding result.walk.standing }
        ensures own { (history : History) (upto : ℕ) → IsOwnOf history upto [] result.own }
        ensures upto { result.upto ≡ 0 }
    {
        let mut walk = Walk::first(alloc);
        walk.turn_to(alloc, session);
        Stand {
            walk,
            own: Own::new(alloc),
            begun: 0,
            upto: 0,
        }
    }

    /// Goes on behind the line at a place.
    ///
    /// # Errors
    /// An allocation failed; the session is of no use then.
    pub(crate) fn pass(
        &mut self,
        alloc: Global,
        judge: &Judge,
        line: ToldLine,
        place: usize,
    ) -> Result<(), AllocError>
        requires judge { IsJudge judge.now }
        requires passing { IsPassing judge.now self.old line place }
        ensures { OnOk result (HasPassed judge.now self.old self.new line.entry place) }
    {
        if is_read_alone(&judge.acts[place], &self.walk) {
            Ok(())
        } else {
            match act_before(alloc, judge, &self.walk, place) {
                Ok(act) => self.pass_act(alloc, judge, line, place, act),
                Err(e) => Err(e),
            }
        }
    }

    // The same behind a line that does this.
    fn pass_act(
        &mut self,
        alloc: Global,
        judge: &Judge,
        line: ToldLine,
        place: usize,
        act: Act,
    ) -> Result<(), AllocError>
        requires judge { IsJudge judge.now }
        requires passing { IsPassing judge.now self.old line place }
        requires sound { IsSoundAct act }
        requires does { (told : ListOf Told) (t : Told) → IsLineTold judge.now told place t
            → IsActAt (standing_of self.old.walk.standing) t.asked act }
        ensures { OnOk result (HasPassed judge.now self.old self.new line.entry place) }
    {
        match self.follow(alloc, line, place, &act) {
            Ok(()) => self.pass_on(alloc, judge, line, place, act),
            Err(e) => fail(act, e),
        }
    }

    // What the transaction has behind an act.
    fn follow(
        &mut self,
        alloc: Global,
        line: ToldLine,
        place: usize,
        act: &Act,
    ) -> Result<(), AllocError>
        requires { (history : History) × (asked : Asked) × IsFollowing history self.old line asked act.now }
        ensures { OnOk result ((history : History) (asked : Asked)
            → IsFollowing history self.old line.entry asked act.now
            → AreOwnBehind history self.old self.new line.entry asked place) }
    {
        match act {
            Act::Reads { view } => self.read(alloc, line.answer, view),
            Act::Writes { view, words } => self.write(alloc, view, words),
            Act::Begins { mode: _ } => {
                self.begin(alloc, place);
                Ok(())
            }
            Act::Refused { body: _ } => Ok(()),
            Act::Opens { name: _, plan: _ } => Ok(()),
            Act::Binds { name: _, view: _ } => Ok(()),
            Act::Commits => Ok(()),
            Act::Aborts => Ok(()),
        }
    }

    // Goes on behind a line that does this, where its operation has joined the transaction.
    fn pass_on(
        &mut self,
        alloc: Global,
        judge: &Judge,
        line: ToldLine,
        place: usize,
        act: Act,
    ) -> Result<(), AllocError>
        requires judge { IsJudge judge.now }
        requires walk { IsWalkAt judge.now self.old.walk place }
        requires line { IsFacingOf judge.now self.old place act }
        requires sound { IsSoundAct act }
        requires answer { IsAnswerAt judge.now.source.now place (answer_of_line line) }
        ensures walked { OnOk result (HasWalked judge.now self.old self.new place) }
        ensures own { OnOk result ((history : History) (u : Transaction)
            → (standing_of self.new.walk.standing).transaction ≡ Some u
            → IsOwnOf history self.old.upto u.ops self.old.own → IsOwnOf history self.new.upto u.ops self.new.own) }
        ensures none { OnOk result ((history : History) → (standing_of self.new.walk.standing).transaction ≡ None
            → IsOwnOf history self.new.upto [] self.new.own) }
        ensures begun { self.new.begun ≡ self.old.begun }
        ensures upto { self.new.upto ≡ self.old.upto }
    {
        pass_line(alloc, &mut self.walk, judge.source, place, act, line.answer)?;
        self.leave(alloc);
        Ok(())
    }

    // A Read joins a transaction under repeatable read, where the answer has values.
    fn read(&mut self, alloc: Global, answer: &SaidAnswer, view: &View) -> Result<(), AllocError>
        requires { (history : History) × IsReadingOf history self.old view.now }
        ensures kept { OnOk result ((history : History) → IsReadingOf history self.old view.now
            → HasReadOf history self.old self.new (data_said answer.now) view.now) }
        ensures begun { self.new.begun ≡ self.old.begun }
        ensures upto { self.new.upto ≡ self.old.upto }
        ensures walk { self.new.walk ≡ self.old.walk }
    {
        if self.keeps_reads() {
            let values = answer.values(alloc)?;
            match values.get() {
                Some(_) => self.own.read(alloc, view),
                None => Ok(()),
            }
        } else {
            Ok(())
        }
    }

    // Whether a transaction under repeatable read stands.
    fn keeps_reads(&self) -> bool
        ensures yes { IsTrue result
            → (u : Transaction) × ((standing_of self.now.walk.standing).transaction ≡ Some u)
            × (u.mode.repeatable_read ≡ true) }
        ensures no { result ≡ false → (u : Transaction) → (standing_of self.now.walk.standing).transaction ≡ Some u
            → u.mode.repeatable_read ≡ false }
    {
        match &self.walk.standing.transaction {
            Some(transaction) => transaction.mode.repeatable_read,
            None => false,
        }
    }

    // A Write joins the transaction that stands.
    fn write(&mut self, alloc: Global, view: &View, words: &WrittenWords) -> Result<(), AllocError>
        requires { (history : History) × IsWritingOf history self.old view.now words.now }
        ensures kept { OnOk result ((history : History) → IsWritingOf history self.old view.now words.now
            → HasWrittenOf history self.old self.new view.now words.now) }
        ensures begun { self.new.begun ≡ self.old.begun }
        ensures upto { self.new.upto ≡ self.old.upto }
        ensures walk { self.new.walk ≡ self.old.walk }
    {
        match &self.walk.standing.transaction {
            Some(_) => self.own.write(alloc, view, words),
            None => Ok(()),
        }
    }

    // A transaction is begun at a place.
    fn begin(&mut self, alloc: Global, place: usize)
        ensures own { (history : History) (upto : ℕ) → IsOwnOf history upto [] self.new.own }
        ensures begun { self.new.begun ≡ place }
        ensures upto { self.new.upto ≡ self.old.upto }
        ensures walk { self.new.walk ≡ self.old.walk }
    {
        self.own = Own::new(alloc);
        self.begun = place;
    }

    // Where no transaction stands there are no operations.
    fn leave(&mut self, alloc: Global)
        ensures some { (u : Transaction) → (standing_of self.old.walk.standing).transaction ≡ Some u
            → self.new.own ≡ self.old.own }
        ensures none { (standing_of self.old.walk.standing).transaction ≡ None
            → (history : History) (upto : ℕ) → IsOwnOf history upto [] self.new.own }
        ensures begun { self.new.begun ≡ self.old.begun }
        ensures upto { self.new.upto ≡ self.old.upto }
        ensures walk { self.new.walk ≡ self.old.walk }
    {
        if self.walk.standing.transaction.is_none() {
            self.own = Own::new(alloc);
        }
    }

    /// How many lines of its session stand before the first at which the line at a place may have looked, where the session's lines begin
    /// at this place.
    pub(crate) fn begun_before(&self, begin: usize, place: usize) -> usize
        requires begin { begin ≤ place }
        requires begun { (told : ListOf Told)
            × IsBegunAt told begin place self.now.begun (standing_of self.now.walk.standing).transaction }
        ensures within { begin + result ≤ place }
        ensures lines { (told : ListOf Told)
            → IsBegunAt told begin place self.now.begun (standing_of self.now.walk.standing).transaction
            → lines_before (standing_of self.now.walk.standing).transaction (take (place - begin) told)
            ≡ take result told }
    {
        if self.keeps_reads() {
            self.begun - begin
        } else {
            place - begin
        }
    }
}

fn fail(_: Act, e: AllocError) -> Result<(), AllocError>
    ensures { result ≡ Err e }
{
    Err(e)
}
