// What lines ask for, as far as arrays and transactions go.
ghost use Rattle.std.specs.Prelude.{◌≡◌, ◌≢◌, ◌∷◌, [], IfOk};
ghost use Rattle.transcript_cut.specs.Form.{form_of, IsSound, IsSoundOther};
ghost use Rattle.transcript_cut.specs.Keeping.{IsCommandOf};
ghost use Rattle.transcript_cut.specs.Lines.{command_of_line};
ghost use Rattle.transcript_cut.specs.Meanings.{line_of, line_of_bytes};
ghost use Rattle.transcript_cut.specs.Transcript.{mount, asked_by};
ghost use Rattle.transcript_cut.specs.Spans.{line_at, IsPlaced};
ghost use Rattle.stated_arrays.specs.Acts.{IsActOf, stands_by, fails, IsSoundAct};

use cells::{List, Name};
use std::alloc::{AllocError, Global};
use transcript_cut::{
    AskedLine, Command, EventNumbers, LineError, OpenPlan, SpecLeaf, read_command,
};

/// What a line asks for.
#[derive(Debug, Drop)]
pub enum Act {
    /// To open arrays.
    Open { leaves: List<SpecLeaf> },
    Begin,
    Commit,
    Abort,
    /// Something else; no transaction begins or ends by it.
    Other,
}

/// What a line asks for, of which this is kept; where nothing is, it is read again.
pub fn act_of(
    alloc: Global,
    scripts: &[List<u8>],
    line: AskedLine,
    command: &Option<Command>,
) -> Result<Act, AllocError>
    requires placed { IsPlaced scripts.now line }
    requires command { IsCommandOf (line_at scripts.now line) command.now }
    ensures asked { IfOk result (IsActOf (asked_by (line_at scripts.now line))) }
    ensures sound { IfOk result IsSoundAct }
{
    match command {
        Some(command) => Ok(act_by(command)),
        None => act_read(alloc, bytes_of(scripts, line)),
    }
}

/// The bytes of a line.
pub fn bytes_of(scripts: &[List<u8>], line: AskedLine) -> &[u8]
    requires { IsPlaced scripts.now line }
    ensures { result.now ≡ (line_at scripts.now line).bytes }
{
    let script = scripts[line.session as usize].items();
    &script[line.bytes.from..line.bytes.upto]
}

// What a command asks for that opens nothing.
fn act_by(command: &Command) -> Act
    requires { IsSoundOther command.now }
    ensures asked { IsActOf (line_of (form_of command.now)) result }
    ensures sound { IsSoundAct result }
{
    match command {
        Command::Open { .. } => unreachable!(),
        Command::Begin { .. } => Act::Begin,
        Command::View { .. } => Act::Other,
        Command::Join { .. } => Act::Other,
        Command::Read { .. } => Act::Other,
        Command::Write { .. } => Act::Other,
        Command::Resize { .. } => Act::Other,
        Command::Resolve { .. } => Act::Other,
        Command::Commit => Act::Commit,
        Command::Abort => Act::Abort,
    }
}

// What a line of these bytes asks for.
fn act_read(alloc: Global, bytes: &[u8]) -> Result<Act, AllocError>
    ensures asked { IfOk result (IsActOf (line_of_bytes (mount ∷ []) bytes.now)) }
    ensures sound { IfOk result IsSoundAct }
{
    let mounts = [the_mount(alloc)?];
    act_of_bytes(alloc, bytes, &mounts)
}

// The name of the one mount.
fn the_mount(alloc: Global) -> Result<Name, AllocError>
    ensures { IfOk result (λ name. name ≡ mount) }
{
    Ok(Name::wrap(String::from_str(alloc, "memory")?))
}

fn act_of_bytes(alloc: Global, bytes: &[u8], mounts: &[Name]) -> Result<Act, AllocError>
    requires { mounts.now ≡ mount ∷ [] }
    ensures asked { IfOk result (IsActOf (line_of_bytes (mount ∷ []) bytes.now)) }
    ensures sound { IfOk result IsSoundAct }
{
    match read_command(alloc, bytes, mounts) {
        Ok(command) => Ok(act_in(command)),
        Err(e) => refused(e),
    }
}

// A line that is no command asks for nothing.
fn refused(e: LineError) -> Result<Act, AllocError>
    ensures { IfOk result (λ act. (act ≡ Act.Other) × (e ≢ LineError.Memory)) }
{
    match e {
        LineError::NotJson => Ok(Act::Other),
        LineError::NotCommand => Ok(Act::Other),
        LineError::Member { .. } => Ok(Act::Other),
        LineError::Spec { .. } => Ok(Act::Other),
        LineError::Steps { .. } => Ok(Act::Other),
        LineError::Memory => Err(AllocError),
    }
}

fn act_in(command: Command) -> Act
    requires { IsSound (mount ∷ []) command }
    ensures asked { IsActOf (line_of (form_of command)) result }
    ensures sound { IsSoundAct result }
{
    match command {
        Command::Open { plan, .. } => opening(plan),
        Command::Begin { .. } => Act::Begin,
        Command::View { .. } => Act::Other,
        Command::Join { .. } => Act::Other,
        Command::Read { .. } => Act::Other,
        Command::Write { .. } => Act::Other,
        Command::Resize { .. } => Act::Other,
        Command::Resolve { .. } => Act::Other,
        Command::Commit => Act::Commit,
        Command::Abort => Act::Abort,
    }
}

fn opening(plan: OpenPlan) -> Act
    ensures { result ≡ Act.Open plan.leaves }
{
    let OpenPlan { leaves, .. } = plan;
    Act::Open { leaves }
}

/// Whether a transaction stands behind a line whose answer prints this, where one stands before it or not.
pub fn stands_behind(stands: bool, act: &Act, numbers: &EventNumbers) -> bool
    ensures { result ≡ stands_by act.now numbers.now stands }
{
    match act {
        Act::Begin => true,
        Act::Commit => stands && fails(numbers),
        Act::Abort => false,
        Act::Open { .. } | Act::Other => stands,
    }
}

// Whether nothing was done, and a store call failed or a chunk is damaged.
fn fails(numbers: &EventNumbers) -> bool
    ensures { result ≡ fails numbers.now }
{
    numbers.done.items().is_empty() && (numbers.failed.is_some() || numbers.damaged)
}
