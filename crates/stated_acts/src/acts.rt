// What a line does, or why it is refused.
ghost use Rattle.std.specs.Prelude.{◌≡◌, ◌∷◌, [], Ok, None, Option, IfOk, All, false, length, if◌then◌else◌};
ghost use Rattle.history.specs.Acts.{reads, write_act};
ghost use Rattle.history.specs.Commit.{Transaction};
ghost use Rattle.history.specs.Lines.{viewing, reading, writing};
ghost use Rattle.index_transform.specs.Cells.{cells_of, count_answer};
ghost use Rattle.indexmap.specs.IndexMap.{get_by_text};
ghost use Rattle.line_acts.specs.Bound.{AreViews};
ghost use Rattle.line_acts.specs.Changes.{changes_of};
ghost use Rattle.line_acts.specs.Meanings.{line_of, line_of_bytes};
ghost use Rattle.line_acts.specs.Numbers.{values_of, downsampling_of};
ghost use Rattle.line_acts.specs.Refusals.{refusal_body};
ghost use Rattle.serde_json.specs.View.{view as data_in};
ghost use Rattle.stack_driver.specs.Conditions.{IsView};
ghost use Rattle.stack_driver.specs.Views.{look_of};
ghost use Rattle.stated_acts.specs.Acts.{IsActAt, IsActAmong, IsActOfView, IsRefusedBy, IsSoundAct};
ghost use Rattle.stated_acts.specs.Standings.{standing_of};
ghost use Rattle.line_acts.specs.Form.{form_of, IsSound};
ghost use Rattle.stated_arrays.specs.CommandLines.{command_of_line};
ghost use Rattle.stated_arrays.specs.Keeping.{IsCommandIn};
ghost use Rattle.stated_arrays.specs.Transcript.{mount};
ghost use Rattle.stated_arrays.specs.Unchecked.{is_unchecked_form, is_unchecked_in};
ghost use Rattle.step_forms.specs.Given.{IsGiven};

use crate::cell_faults::check_cells;
use crate::standing::Standing;
use cells::{List, Name, WrittenWords};
use history::Mode;
use index_transform::Transform;
use line_acts::{Body, DownWant, Names, Worded, asked_read, refusal, taken_write, viewed};
use serde_json::Value;
use stack_driver::View;
use stated_arrays::{Command, LineError, OpenPlan, read_command};
use std::alloc::{AllocError, Global};
use step_forms::Step;

/// What a line does, or why it is refused.
#[derive(Drop)]
pub enum Act {
    /// Nothing, and this is answered.
    Refused { body: Body },
    /// It opens what a plan asks for, and binds the name to the plan's view.
    Opens { name: Name, plan: OpenPlan },
    /// It binds the name to the view.
    Binds { name: Name, view: View },
    /// It reads the view.
    Reads { view: View },
    /// It writes the words to the view: in the transaction that stands, and as one of its own where none does.
    Writes { view: View, words: WrittenWords },
    Begins { mode: Mode },
    Commits,
    Aborts,
}

/// What a line of these bytes does for a session that stands so, where this is the name of the mount, and this is kept of the line: where nothing
/// is, it is read again. Lines that aren't checked are left out.
///
/// # Errors
/// An allocation failed.
pub fn act_of(
    alloc: Global,
    standing: &Standing,
    mounts: &[Name],
    bytes: &[u8],
    kept: Option<Command>,
) -> Result<Act, AllocError>
    requires views { AreViews (get_by_text standing.now.names) }
    requires mounts { mounts.now ≡ mount ∷ [] }
    requires kept { IsCommandIn bytes.now kept }
    requires checked { is_unchecked_in (command_of_line (mount ∷ []) bytes.now) ≡ false }
    ensures act { IfOk result (IsActAt (standing_of standing.now) (line_of_bytes (mount ∷ []) bytes.now)) }
    ensures sound { IfOk result IsSoundAct }
{
    match kept {
        Some(command) => act_in(alloc, standing, command),
        None => act_read(alloc, standing, mounts, bytes),
    }
}

// The same of a line that is read again.
fn act_read(
    alloc: Global,
    standing: &Standing,
    mounts: &[Name],
    bytes: &[u8],
) -> Result<Act, AllocError>
    requires views { AreViews (get_by_text standing.now.names) }
    requires mounts { mounts.now ≡ mount ∷ [] }
    requires checked { is_unchecked_in (command_of_line (mount ∷ []) bytes.now) ≡ false }
    ensures act { IfOk result (IsActAt (standing_of standing.now) (line_of_bytes (mount ∷ []) bytes.now)) }
    ensures sound { IfOk result IsSoundAct }
{
    match read_command(alloc, bytes, mounts) {
        Ok(command) => act_in(alloc, standing, command),
        Err(error) => refused_form(alloc, error),
    }
}

// A line that is no command.
fn refused_form(alloc: Global, error: LineError) -> Result<Act, AllocError>
    ensures { IfOk result (IsRefusedBy (refusal_body error)) }
{
    match refusal(alloc, error) {
        Ok(body) => refused(body),
        Err(e) => Err(e),
    }
}

// A line that is refused; a body that says that memory was wanting is no refusal.
fn refused(body: Body) -> Result<Act, AllocError>
    ensures { IfOk result (IsRefusedBy body) }
{
    match body {
        Body::Memory => Err(AllocError),
        body => Ok(Act::Refused { body }),
    }
}

// What a command does.
fn act_in(alloc: Global, standing: &Standing, command: Command) -> Result<Act, AllocError>
    requires views { AreViews (get_by_text standing.now.names) }
    requires command { IsSound (mount ∷ []) command }
    requires checked { is_unchecked_form (form_of command) ≡ false }
    ensures act { IfOk result (IsActAt (standing_of standing.now) (line_of (form_of command))) }
    ensures sound { IfOk result IsSoundAct }
{
    let stands = standing.transaction.is_some();
    match command {
        Command::Open { name, plan } => Ok(opened(stands, name, plan)),
        Command::View {
            name,
            of,
            transform,
            steps,
        } => bound(alloc, &standing.names, name, of, transform, steps),
        Command::Read { name, steps, down } => shown(alloc, &standing.names, name, steps, down),
        Command::Write {
            name,
            steps,
            values,
        } => written(alloc, &standing.names, name, steps, values),
        Command::Begin {
            atomic,
            repeatable_read,
        } => Ok(begun(stands, atomic, repeatable_read)),
        Command::Commit => Ok(ended(stands, Act::Commits)),
        Command::Abort => Ok(ended(stands, Act::Aborts)),
        Command::Join { .. } => unreachable!(),
        Command::Resize { .. } => unreachable!(),
        Command::Resolve { .. } => unreachable!(),
    }
}

// An open line: only outside of a transaction.
fn opened(stands: bool, name: Name, plan: OpenPlan) -> Act
    ensures { result ≡ (if stands then Act.Refused Body.InTransaction else Act.Opens name plan) }
{
    if stands {
        Act::Refused {
            body: Body::InTransaction,
        }
    } else {
        Act::Opens { name, plan }
    }
}

// A begin: only outside of a transaction.
fn begun(stands: bool, atomic: bool, repeatable_read: bool) -> Act
    ensures { result ≡ (if stands then Act.Refused Body.InTransaction
        else Act.Begins (record { atomic = atomic; repeatable_read = repeatable_read })) }
{
    if stands {
        Act::Refused {
            body: Body::InTransaction,
        }
    } else {
        Act::Begins {
            mode: Mode {
                atomic,
                repeatable_read,
            },
        }
    }
}

// What ends a transaction: only inside one.
fn ended(stands: bool, act: Act) -> Act
    ensures { result ≡ (if stands then act else Act.Refused Body.NoTransaction) }
{
    if stands {
        act
    } else {
        Act::Refused {
            body: Body::NoTransaction,
        }
    }
}

// A view line.
fn bound(
    alloc: Global,
    names: &Names,
    name: Name,
    of: Name,
    transform: Option<Transform>,
    steps: List<Step>,
) -> Result<Act, AllocError>
    requires given { All IsGiven steps }
    requires views { AreViews (get_by_text names.now) }
    ensures act { IfOk result (IsActAmong (get_by_text names.now) (viewing name of (changes_of transform steps))) }
    ensures sound { IfOk result IsSoundAct }
{
    bound_by(alloc, names, name, of.items(), &transform, steps.items())
}

fn bound_by(
    alloc: Global,
    names: &Names,
    name: Name,
    of: &str,
    transform: &Option<Transform>,
    steps: &[Step],
) -> Result<Act, AllocError>
    requires given { All IsGiven steps.now }
    requires views { AreViews (get_by_text names.now) }
    ensures act { IfOk result (IsActAmong (get_by_text names.now)
        (viewing name of.now (changes_of transform.now steps.now))) }
    ensures sound { IfOk result IsSoundAct }
{
    match viewed(alloc, names, of, transform, steps) {
        Ok(view) => Ok(Act::Binds { name, view }),
        Err(body) => refused(body),
    }
}

// A read line that isn't downsampled.
fn shown(
    alloc: Global,
    names: &Names,
    name: Name,
    steps: List<Step>,
    down: Option<DownWant>,
) -> Result<Act, AllocError>
    requires given { All IsGiven steps }
    requires plain { down ≡ None }
    requires views { AreViews (get_by_text names.now) }
    ensures act { IfOk result (IsActAmong (get_by_text names.now)
        (reading name (changes_of None steps) (downsampling_of down))) }
    ensures sound { IfOk result IsSoundAct }
{
    shown_by(alloc, names, name.items(), steps.items(), &down)
}

fn shown_by(
    alloc: Global,
    names: &Names,
    name: &str,
    steps: &[Step],
    down: &Option<DownWant>,
) -> Result<Act, AllocError>
    requires given { All IsGiven steps.now }
    requires plain { down.now ≡ None }
    requires views { AreViews (get_by_text names.now) }
    ensures act { IfOk result (IsActAmong (get_by_text names.now)
        (reading name.now (changes_of None steps.now) (downsampling_of down.now))) }
    ensures sound { IfOk result IsSoundAct }
{
    match asked_read(alloc, names, name, steps, down) {
        Ok(view) => shown_cells(alloc, view),
        Err(body) => refused(body),
    }
}

fn shown_cells(alloc: Global, view: View) -> Result<Act, AllocError>
    requires view { IsView view }
    requires count { count_answer (look_of view).dims ≡ Ok (length (cells_of (look_of view).dims)) }
    ensures act { IfOk result (λ act. (t : Option Transaction) → IsActOfView view (reads view None) t act) }
    ensures sound { IfOk result IsSoundAct }
{
    match check_cells(alloc, &view) {
        Ok(()) => Ok(Act::Reads { view }),
        Err(body) => refused(body),
    }
}

// A write line.
fn written(
    alloc: Global,
    names: &Names,
    name: Name,
    steps: List<Step>,
    values: Value,
) -> Result<Act, AllocError>
    requires given { All IsGiven steps }
    requires views { AreViews (get_by_text names.now) }
    ensures act { IfOk result (IsActAmong (get_by_text names.now)
        (writing name (changes_of None steps) (values_of (data_in values)))) }
    ensures sound { IfOk result IsSoundAct }
{
    written_by(alloc, names, name.items(), steps.items(), values)
}

fn written_by(
    alloc: Global,
    names: &Names,
    name: &str,
    steps: &[Step],
    values: Value,
) -> Result<Act, AllocError>
    requires given { All IsGiven steps.now }
    requires views { AreViews (get_by_text names.now) }
    ensures act { IfOk result (IsActAmong (get_by_text names.now)
        (writing name.now (changes_of None steps.now) (values_of (data_in values)))) }
    ensures sound { IfOk result IsSoundAct }
{
    match taken_write(alloc, names, name, steps, values) {
        Ok(worded) => written_cells(alloc, worded),
        Err(body) => refused(body),
    }
}

fn written_cells(alloc: Global, worded: Worded) -> Result<Act, AllocError>
    requires view { IsView worded.view }
    requires count { count_answer (look_of worded.view).dims ≡ Ok (length worded.words) }
    ensures act { IfOk result (λ act. (t : Option Transaction)
        → IsActOfView worded.view (write_act t worded.view worded.words) t act) }
    ensures sound { IfOk result IsSoundAct }
{
    let Worded { view, words } = worded;
    match check_cells(alloc, &view) {
        Ok(()) => Ok(Act::Writes { view, words }),
        Err(body) => refused(body),
    }
}
