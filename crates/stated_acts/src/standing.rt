// How a session stands between two lines, as its lines and the answers to them show it.
ghost use Rattle.std.specs.Prelude.{◌≡◌, ◌++◌, ◌∷◌, [], codes, None, Some, Ok, IfOk, OnOk, length};
ghost use Rattle.history.specs.Acts.{Asked};
ghost use Rattle.history.specs.History.{History};
ghost use Rattle.history.specs.Sessions.{bind, new_transaction};
ghost use Rattle.history.specs.Shown.{after_read};
ghost use Rattle.history.specs.Steps.{with_write};
ghost use Rattle.history.specs.Viewing.{shape_of as sizes_of};
ghost use Rattle.index_transform.specs.Cells.{cells_of};
ghost use Rattle.indexmap.specs.IndexMap.{get_by_text};
ghost use Rattle.script_lines.specs.NestedWords.{nested_words};
ghost use Rattle.serde_json.specs.Find.{get};
ghost use Rattle.serde_json.specs.View.{view as data_in};
ghost use Rattle.stack_driver.specs.Conditions.{IsView};
ghost use Rattle.stack_driver.specs.Views.{look_of};
ghost use Rattle.stack_driver.specs.declared.view.View.{View as ViewOf};
ghost use Rattle.stated_acts.specs.Acts.{IsActBy, IsSoundAct, HasCells};
ghost use Rattle.stated_acts.specs.SaidAnswers.{data_said};
ghost use Rattle.stated_acts.specs.Standings.{transaction_of, transaction_in, standing_of, IsSoundStanding, written_in, left_in, ended_by, IsOpenedBy, IsEnded};
ghost use Rattle.stated_arrays.specs.AnswerNumbers.{PrintsNumbers};
ghost use Rattle.stated_arrays.specs.Standings.{first_standing, names_opened, words_given, read_told, standing_asked};
ghost use Rattle.stated_arrays.specs.ToldNumbers.{single};

use crate::acts::Act;
use crate::said_answer::SaidAnswer;
use cells::{Name, WrittenWords};
use history::{Mode, Op};
use indexmap::IndexMap;
use line_acts::{Body, Names, bind};
use serde_json::Value;
use stack_driver::View;
use stated_arrays::{EventNumbers, OpenPlan, words_told};
use std::alloc::{AllocError, Global};

/// A session between two lines: the views that its names are bound to, and the transaction that stands.
#[derive(Drop)]
pub struct Standing {
    pub names: Names,
    pub transaction: Option<Ongoing>,
}

/// A transaction that stands: where it was begun, its flags and its operations. A Read has the words that the
/// transcript tells.
#[derive(Drop)]
pub struct Ongoing {
    pub line: u64,
    pub mode: Mode,
    pub ops: Vec<Op>,
}

impl Standing {
    /// A session before its first line. It takes no memory.
    pub fn first(alloc: Global) -> Standing
        ensures stands { standing_of result ≡ first_standing }
        ensures sound { IsSoundStanding result }
    {
        Standing {
            names: IndexMap::new(alloc),
            transaction: None,
        }
    }

    /// Goes on behind a line that did this, to which this was answered, with these numbers. An open line may have
    /// opened a view. What comes back is the transaction that a commit ended, if it ended one.
    ///
    /// # Errors
    /// An allocation failed. The session may stand as it stood or not then.
    pub fn step(
        &mut self,
        alloc: Global,
        line: u64,
        act: Act,
        answer: &SaidAnswer,
        numbers: &EventNumbers,
        opened: Option<View>,
    ) -> Result<Option<Ongoing>, AllocError>
        requires stands { IsSoundStanding self.old }
        requires act { IsSoundAct act }
        requires numbers { PrintsNumbers (data_said answer.now) numbers.now }
        requires opened { (v : ViewOf) → opened ≡ Some v → IsView v }
        ensures stands { OnOk result ((history : History) (asked : Asked)
            → IsActBy (standing_of self.old).transaction asked act
            → IsOpenedBy history (data_said answer.now) act opened
            → standing_of self.new ≡ standing_asked history (standing_of self.old) line asked (data_said answer.now)) }
        ensures ended { IfOk result (IsEnded act (transaction_in self.old.transaction)
            (transaction_in self.new.transaction)) }
        ensures sound { OnOk result (IsSoundStanding self.new) }
    {
        let mut opened = opened;
        self.step_by(alloc, line, act, answer, numbers, &mut opened)
    }

    // The same, by the act. The view may be taken.
    fn step_by(
        &mut self,
        alloc: Global,
        line: u64,
        act: Act,
        answer: &SaidAnswer,
        numbers: &EventNumbers,
        opened: &mut Option<View>,
    ) -> Result<Option<Ongoing>, AllocError>
        requires stands { IsSoundStanding self.old }
        requires act { IsSoundAct act }
        requires numbers { PrintsNumbers (data_said answer.now) numbers.now }
        requires opened { (v : ViewOf) → opened.old ≡ Some v → IsView v }
        ensures stands { OnOk result ((history : History) (asked : Asked)
            → IsActBy (standing_of self.old).transaction asked act
            → IsOpenedBy history (data_said answer.now) act opened.old
            → standing_of self.new ≡ standing_asked history (standing_of self.old) line asked (data_said answer.now)) }
        ensures ended { IfOk result (IsEnded act (transaction_in self.old.transaction)
            (transaction_in self.new.transaction)) }
        ensures sound { OnOk result (IsSoundStanding self.new) }
    {
        match act {
            Act::Refused { body } => unmoved(body),
            Act::Opens { name, plan } => self.bind_opening(alloc, name, plan, answer, opened),
            Act::Binds { name, view } => self.rebind(alloc, name, view),
            Act::Reads { view } => self.keep_read(alloc, view, answer),
            Act::Writes { view, words } => self.keep_write(view, words),
            Act::Begins { mode } => {
                self.begin(alloc, line, mode);
                Ok(None)
            }
            Act::Commits => Ok(self.end(numbers)),
            Act::Aborts => {
                self.abort();
                Ok(None)
            }
        }
    }
}

// What is refused changes nothing.
fn unmoved(_: Body) -> Result<Option<Ongoing>, AllocError>
    ensures { result ≡ Ok None }
{
    Ok(None)
}

// The steps, each without a transaction that it would hand back.
impl Standing {
    // An open line.
    fn bind_opening(
        &mut self,
        alloc: Global,
        name: Name,
        _: OpenPlan,
        answer: &SaidAnswer,
        view: &mut Option<View>,
    ) -> Result<Option<Ongoing>, AllocError>
        ensures names { OnOk result (get_by_text self.new.names
            ≡ names_opened (get_by_text self.old.names) name (get (codes "open") (data_said answer.now)) view.old) }
        ensures transaction { self.new.transaction ≡ self.old.transaction }
        ensures none { IfOk result (λ ended. ended ≡ None) }
    {
        let read = answer.read(alloc)?;
        match self.bind_opened(alloc, &name, read.value(), view.take()) {
            Ok(()) => Ok(None),
            Err(e) => Err(e),
        }
    }

    // A view line.
    fn rebind(
        &mut self,
        alloc: Global,
        name: Name,
        view: View,
    ) -> Result<Option<Ongoing>, AllocError>
        ensures names { OnOk result (get_by_text self.new.names ≡ bind (get_by_text self.old.names) name view) }
        ensures transaction { self.new.transaction ≡ self.old.transaction }
        ensures none { IfOk result (λ ended. ended ≡ None) }
    {
        match self.bind(alloc, &name, view) {
            Ok(()) => Ok(None),
            Err(e) => Err(e),
        }
    }

    // A read line.
    fn keep_read(
        &mut self,
        alloc: Global,
        view: View,
        answer: &SaidAnswer,
    ) -> Result<Option<Ongoing>, AllocError>
        requires { HasCells view (length (cells_of (look_of view).dims)) }
        ensures transaction { OnOk result (transaction_in self.new.transaction
            ≡ read_told (transaction_in self.old.transaction) view (get (codes "values") (data_said answer.now))) }
        ensures names { self.new.names ≡ self.old.names }
        ensures none { IfOk result (λ ended. ended ≡ None) }
    {
        if self.transaction.is_none() {
            return Ok(None);
        }
        let read = answer.read(alloc)?;
        match self.read(alloc, view, read.value()) {
            Ok(()) => Ok(None),
            Err(e) => Err(e),
        }
    }

    // A write line.
    fn keep_write(&mut self, view: View, words: WrittenWords) -> Result<Option<Ongoing>, AllocError>
        ensures transaction { OnOk result (transaction_in self.new.transaction
            ≡ written_in (transaction_in self.old.transaction) view words) }
        ensures names { self.new.names ≡ self.old.names }
        ensures none { IfOk result (λ ended. ended ≡ None) }
    {
        match self.write(view, words) {
            Ok(()) => Ok(None),
            Err(e) => Err(e),
        }
    }
}

impl Standing {
    // Binds a name to a view.
    fn bind(&mut self, alloc: Global, name: &Name, view: View) -> Result<(), AllocError>
        ensures names { OnOk result (get_by_text self.new.names ≡ bind (get_by_text self.old.names) name.now view) }
        ensures transaction { self.new.transaction ≡ self.old.transaction }
    {
        if bind(alloc, &mut self.names, name.items(), view) {
            Ok(())
        } else {
            Err(AllocError)
        }
    }

    // Binds the name of an open line, where the answer says so and there is a view.
    fn bind_opened(
        &mut self,
        alloc: Global,
        name: &Name,
        answer: &Value,
        view: Option<View>,
    ) -> Result<(), AllocError>
        ensures names { OnOk result (get_by_text self.new.names
            ≡ names_opened (get_by_text self.old.names) name.now (get (codes "open") (data_in answer.now)) view) }
        ensures transaction { self.new.transaction ≡ self.old.transaction }
    {
        if answer.get("open").is_none() {
            return Ok(());
        }
        match view {
            Some(view) => self.bind(alloc, name, view),
            None => Ok(()),
        }
    }

    // Keeps a read's words, where the answer tells them.
    fn read(&mut self, alloc: Global, view: View, answer: &Value) -> Result<(), AllocError>
        requires { HasCells view (length (cells_of (look_of view).dims)) }
        ensures transaction { OnOk result (transaction_in self.new.transaction
            ≡ read_told (transaction_in self.old.transaction) view (get (codes "values") (data_in answer.now))) }
        ensures names { self.new.names ≡ self.old.names }
    {
        match answer.get("values") {
            Some(values) => {
                let transaction = with_read(alloc, self.transaction.take(), view, values)?;
                self.transaction = transaction;
                Ok(())
            }
            None => Ok(()),
        }
    }

    // Keeps a write, where a transaction stands.
    fn write(&mut self, view: View, words: WrittenWords) -> Result<(), AllocError>
        ensures transaction { OnOk result (transaction_in self.new.transaction
            ≡ written_in (transaction_in self.old.transaction) view words) }
        ensures names { self.new.names ≡ self.old.names }
    {
        let transaction = with_write(self.transaction.take(), view, words)?;
        self.transaction = transaction;
        Ok(())
    }

    // Begins a transaction.
    fn begin(&mut self, alloc: Global, line: u64, mode: Mode)
        ensures transaction { transaction_in self.new.transaction ≡ Some (new_transaction line mode) }
        ensures names { self.new.names ≡ self.old.names }
    {
        self.transaction = Some(Ongoing {
            line,
            mode,
            ops: Vec::new(alloc),
        });
    }

    // Ends the transaction behind its commit, and hands it out; it stands on where nothing was done, and a store call
    // failed or a chunk is damaged.
    fn end(&mut self, numbers: &EventNumbers) -> Option<Ongoing>
        ensures transaction { transaction_in self.new.transaction
            ≡ left_in (transaction_in self.old.transaction) numbers.now.done (single numbers.now.failed)
            numbers.now.damaged }
        ensures ended { transaction_in result
            ≡ ended_by (transaction_in self.old.transaction) (transaction_in self.new.transaction) }
        ensures names { self.new.names ≡ self.old.names }
    {
        if numbers.done.items().is_empty() && (numbers.failed.is_some() || numbers.damaged) {
            None
        } else {
            self.transaction.take()
        }
    }

    // Ends the transaction, of which nothing is done.
    fn abort(&mut self)
        ensures transaction { transaction_in self.new.transaction ≡ None }
        ensures names { self.new.names ≡ self.old.names }
    {
        self.transaction = None;
    }
}

// The transaction behind a read to whose view values give words, if one stands.
fn with_read(
    alloc: Global,
    transaction: Option<Ongoing>,
    view: View,
    values: &Value,
) -> Result<Option<Ongoing>, AllocError>
    requires { HasCells view (length (cells_of (look_of view).dims)) }
    ensures { IfOk result (λ t. transaction_in t
        ≡ read_told (transaction_in transaction) view (Some (data_in values.now))) }
{
    match transaction {
        Some(t) => match t.with_read(alloc, view, values) {
            Ok(t) => Ok(Some(t)),
            Err(e) => Err(e),
        },
        None => Ok(None),
    }
}

// The transaction behind a write, if one stands.
fn with_write(
    transaction: Option<Ongoing>,
    view: View,
    words: WrittenWords,
) -> Result<Option<Ongoing>, AllocError>
    ensures { IfOk result (λ t. transaction_in t ≡ written_in (transaction_in transaction) view words) }
{
    match transaction {
        Some(t) => match t.with_write(view, words) {
            Ok(t) => Ok(Some(t)),
            Err(e) => Err(e),
        },
        None => Ok(None),
    }
}

impl Ongoing {
    // With a read whose words these values give, under repeatable read.
    fn with_read(self, alloc: Global, view: View, values: &Value) -> Result<Ongoing, AllocError>
        requires { HasCells view (length (cells_of (look_of view).dims)) }
        ensures { IfOk result (λ t. transaction_of t ≡ after_read (transaction_of self) view
            (words_given (nested_words (look_of view).dtype (sizes_of view) (data_in values.now))) []) }
    {
        if !self.mode.repeatable_read {
            return Ok(self);
        }
        let words = words_told(alloc, &view, values)?;
        self.extended(Op::Read { view, words })
    }

    // With a write.
    fn with_write(self, view: View, words: WrittenWords) -> Result<Ongoing, AllocError>
        ensures { IfOk result (λ t. transaction_of t ≡ with_write (transaction_of self) view words) }
    {
        self.extended(Op::Write { view, words })
    }

    // With an operation more.
    fn extended(self, op: Op) -> Result<Ongoing, AllocError>
        ensures { IfOk result (λ t. transaction_of t
            ≡ record (transaction_of self) { ops = (transaction_of self).ops ++ op ∷ [] }) }
    {
        let Ongoing { line, mode, ops } = self;
        let mut ops = ops;
        ops.push(op)?;
        Ok(Ongoing { line, mode, ops })
    }
}
