// A walk over the lines of all sessions.
ghost use Rattle.std.specs.Prelude.{◌≡◌, ◌≢◌, ◌<◌, None, Some, IfOk, OnOk, length, option_map};
ghost use Rattle.history.specs.Acts.{Asked};
ghost use Rattle.history.specs.History.{History};
ghost use Rattle.history.specs.Steps.{write_alone};
ghost use Rattle.stack_driver.specs.Conditions.{IsView};
ghost use Rattle.stack_driver.specs.declared.view.View.{View as ViewOf};
ghost use Rattle.stated_acts.specs.Acts.{IsActBy, IsSoundAct};
ghost use Rattle.stated_history.specs.Walks.{IsNoWrite};
ghost use Rattle.stated_acts.specs.declared.Act.TheVariants.{Writes};
ghost use Rattle.stated_acts.specs.SaidAnswers.{data_said};
ghost use Rattle.stated_acts.specs.Standings.{transaction_of, standing_of, IsSoundStanding, IsOpenedBy};
ghost use Rattle.stated_history.specs.Commits.{commit_of, kind_in};
ghost use Rattle.stated_history.specs.Walks.{commit_by};
ghost use Rattle.stated_acts.specs.AnswerNumbers.{PrintsNumbers};
ghost use Rattle.stated_acts.specs.ToldStandings.{first_standing, standing_asked};

use crate::putting::Commit;
use cells::WrittenWords;
use history::{Mode, Op};
use stack_driver::View;
use stated_acts::{Act, Ongoing, Said, SaidAnswer, Standing};
use std::alloc::{AllocError, Global};

/// Where a walk over the lines of all sessions stands: the session of the line before, and how that stands behind it.
#[derive(Drop)]
pub struct Walk {
    pub session: u32,
    pub standing: Standing,
}

impl Walk {
    /// Before the first line.
    pub fn first(alloc: Global) -> Walk
        ensures session { result.session ≡ 0 }
        ensures stands { standing_of result.standing ≡ first_standing }
        ensures sound { IsSoundStanding result.standing }
    {
        Walk {
            session: 0,
            standing: Standing::first(alloc),
        }
    }

    /// Turns to a session, which stands before its first line where it is another one.
    pub fn turn_to(&mut self, alloc: Global, session: u32)
        requires { IsSoundStanding self.old.standing }
        ensures session { self.new.session ≡ session }
        ensures same { self.old.session ≡ session → self.new.standing ≡ self.old.standing }
        ensures first { self.old.session ≢ session → standing_of self.new.standing ≡ first_standing }
        ensures sound { IsSoundStanding self.new.standing }
    {
        if self.session != session {
            self.session = session;
            self.standing = Standing::first(alloc);
        }
    }

    /// Goes on behind a line that did this, to which this was answered, and gives its commit, if it prints a number of one.
    ///
    /// # Errors
    /// An allocation failed.
    pub(crate) fn go_on(
        &mut self,
        alloc: Global,
        said: &Said,
        act: Act,
        answer: &SaidAnswer,
        opened: Option<View>,
    ) -> Result<Option<Commit>, AllocError>
        requires sound { IsSoundStanding self.old.standing }
        requires act { IsSoundAct act }
        requires numbers { PrintsNumbers (data_said answer.now) said.now.numbers }
        requires opened { (v : ViewOf) → opened ≡ Some v → IsView v }
        ensures stands { OnOk result ((history : History) (asked : Asked)
            → IsActBy (standing_of self.old.standing).transaction asked act
            → IsOpenedBy history (data_said answer.now) act opened
            → standing_of self.new.standing
            ≡ standing_asked history (standing_of self.old.standing) said.now.line.number asked
            (data_said answer.now)) }
        ensures event { IfOk result (λ commit. (history : History) (asked : Asked)
            → IsActBy (standing_of self.old.standing).transaction asked act
            → IsOpenedBy history (data_said answer.now) act opened
            → 0 < length said.now.numbers.done → option_map kind_in commit ≡ commit_by said.now.line.number asked) }
        ensures sound { OnOk result (IsSoundStanding self.new.standing) }
        ensures session { self.new.session ≡ self.old.session }
    {
        match act {
            Act::Writes { view, words } => self.write(alloc, said, answer, view, words),
            act => self.step(alloc, said, act, answer, opened),
        }
    }

    // The same behind a write, which is a commit of its own where no transaction stands.
    fn write(
        &mut self,
        alloc: Global,
        said: &Said,
        answer: &SaidAnswer,
        view: View,
        words: WrittenWords,
    ) -> Result<Option<Commit>, AllocError>
        requires sound { IsSoundStanding self.old.standing }
        requires act { IsSoundAct (Writes view words) }
        requires numbers { PrintsNumbers (data_said answer.now) said.now.numbers }
        ensures stands { OnOk result ((history : History) (asked : Asked)
            → IsActBy (standing_of self.old.standing).transaction asked (Writes view words)
            → standing_of self.new.standing
            ≡ standing_asked history (standing_of self.old.standing) said.now.line.number asked
            (data_said answer.now)) }
        ensures event { IfOk result (λ commit. (asked : Asked)
            → IsActBy (standing_of self.old.standing).transaction asked (Writes view words)
            → 0 < length said.now.numbers.done → option_map kind_in commit ≡ commit_by said.now.line.number asked) }
        ensures sound { OnOk result (IsSoundStanding self.new.standing) }
        ensures session { self.new.session ≡ self.old.session }
    {
        if self.standing.transaction.is_some() {
            let act = Act::Writes { view, words };
            self.standing
                .step(alloc, said.line.number, act, answer, &said.numbers, None)?;
            return Ok(None);
        }
        if said.numbers.done.items().is_empty() {
            return Ok(None);
        }
        match write_of(alloc, said.line.number, view, words) {
            Ok(commit) => Ok(Some(commit)),
            Err(e) => Err(e),
        }
    }

    // The same behind any other line: a commit gives the event of the transaction that it ends.
    fn step(
        &mut self,
        alloc: Global,
        said: &Said,
        act: Act,
        answer: &SaidAnswer,
        opened: Option<View>,
    ) -> Result<Option<Commit>, AllocError>
        requires other { IsNoWrite act }
        requires sound { IsSoundStanding self.old.standing }
        requires act { IsSoundAct act }
        requires numbers { PrintsNumbers (data_said answer.now) said.now.numbers }
        requires opened { (v : ViewOf) → opened ≡ Some v → IsView v }
        ensures stands { OnOk result ((history : History) (asked : Asked)
            → IsActBy (standing_of self.old.standing).transaction asked act
            → IsOpenedBy history (data_said answer.now) act opened
            → standing_of self.new.standing
            ≡ standing_asked history (standing_of self.old.standing) said.now.line.number asked
            (data_said answer.now)) }
        ensures event { IfOk result (λ commit. (history : History) (asked : Asked)
            → IsActBy (standing_of self.old.standing).transaction asked act
            → IsOpenedBy history (data_said answer.now) act opened
            → 0 < length said.now.numbers.done → option_map kind_in commit ≡ commit_by said.now.line.number asked) }
        ensures sound { OnOk result (IsSoundStanding self.new.standing) }
        ensures session { self.new.session ≡ self.old.session }
    {
        let ended = self.standing.step(
            alloc,
            said.line.number,
            act,
            answer,
            &said.numbers,
            opened,
        )?;
        match ended {
            Some(transaction) => match Commit::of(alloc, transaction) {
                Ok(commit) => Ok(Some(commit)),
                Err(e) => Err(e),
            },
            None => Ok(None),
        }
    }
}

// The commit of a write outside of a transaction.
fn write_of(alloc: Global, line: u64, view: View, words: WrittenWords) -> Result<Commit, AllocError>
    ensures { IfOk result (λ c. kind_in c ≡ commit_of (write_alone line view words)) }
{
    let mut ops = Vec::with_capacity(alloc, 1)?;
    ops.push(Op::Write { view, words })?;
    let mode = Mode {
        atomic: false,
        repeatable_read: false,
    };
    Commit::of(alloc, Ongoing { line, mode, ops })
}
