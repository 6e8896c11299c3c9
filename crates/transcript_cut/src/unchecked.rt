// Reading the lines of scripts, up to the first that isn't checked.
ghost use Rattle.std.specs.Prelude.{◌≡◌, ◌<◌, ◌^◌, [], ◌∷◌, ℕ, List as ListOf, IfOk, IfSome, IfNone, length};
ghost use Rattle.std.specs.List.{list_any};
ghost use Rattle.transcript_laws.specs.Form.{form_of, opening, IsSound};
ghost use Rattle.transcript_laws.specs.Transcript.{lines_of_scripts, mount};
ghost use Rattle.transcript_laws.specs.Unchecked.{AreChecked, IsFirstUnchecked, is_zarr3};
ghost use Rattle.transcript_cut.specs.Keeping.{AreCommandsOf, IsAsking, IsCheckedForm, IsKeptIfChecked, IsLineRead};
ghost use Rattle.transcript_cut.specs.Spans.{line_at, IsPlaced};

use crate::cursor::Cursor;
use crate::said::AskedLine;
use cells::{List, Name};
use std::alloc::{AllocError, Global};
use transcript_laws::{Command, LineError, OpenPlan, SpecLeaf, read_command};

/// What the lines of scripts ask for.
#[derive(Drop)]
pub enum Asking {
    /// All are checked. Of each that isn't blank there is the command that it is, so that it need not be read again, or nothing: always nothing of
    /// a line that opens something or is refused.
    Checked { commands: List<Option<Command>> },
    /// This line isn't checked, the first: a resize, a resolve, an open whose Spec has a node of the driver zarr3, a downsampled read, or a
    /// joined view. A line that has no such form is checked.
    Unchecked { line: AskedLine },
}

/// Reads the lines of scripts, up to the first that isn't checked.
///
/// # Errors
/// An allocation failed.
pub fn read_lines(alloc: Global, scripts: &[List<u8>]) -> Result<Asking, AllocError>
    requires { length scripts.now < 2 ^ 32 }
    ensures { IfOk result (IsAsking scripts.now) }
{
    let mounts = [the_mount(alloc)?];
    let mut commands = Vec::new(alloc);
    match keep_lines(alloc, scripts, &mounts, &mut commands) {
        Ok(None) => Ok(Asking::Checked {
            commands: List::wrap(commands),
        }),
        Ok(Some(line)) => Ok(Asking::Unchecked { line }),
        Err(e) => Err(e),
    }
}

// The name of the one mount.
fn the_mount(alloc: Global) -> Result<Name, AllocError>
    ensures { IfOk result (λ name. name ≡ mount) }
{
    Ok(Name::wrap(String::from_str(alloc, "memory")?))
}

// The first line that isn't checked, where these are the names of the mounts. The commands of those before it are kept.
fn keep_lines(
    alloc: Global,
    scripts: &[List<u8>],
    mounts: &[Name],
    commands: &mut Vec<Option<Command>>,
) -> Result<Option<AskedLine>, AllocError>
    requires few { length scripts.now < 2 ^ 32 }
    requires mounts { mounts.now ≡ mount ∷ [] }
    requires none { commands.old.items ≡ [] }
    ensures some { IfOk result (λ found. IfSome found
        (λ line. IsFirstUnchecked scripts.now (line_at scripts.now line))) }
    ensures none { IfOk result (λ found. IfNone found (AreChecked scripts.now)) }
    ensures kept { IfOk result (λ found. IfNone found
        (AreCommandsOf (lines_of_scripts 0 scripts.now) commands.new.items)) }
    ensures placed { IfOk result (λ found. IfSome found (IsPlaced scripts.now)) }
{
    let mut cursor = Cursor::first();
    'lines: while let Some(line) = cursor.next_line(scripts) {
        let checked = keep_line(alloc, bytes_of(scripts, line), mounts, commands)?;
        if !checked {
            return Ok(Some(line));
        }
    }
    Ok(None)
}

// The bytes of a line.
fn bytes_of(scripts: &[List<u8>], line: AskedLine) -> &[u8]
    requires { IsPlaced scripts.now line }
    ensures { result.now ≡ (line_at scripts.now line).bytes }
{
    let script = scripts[line.session as usize].items();
    &script[line.bytes.from..line.bytes.upto]
}

// Keeps the command that a line of these bytes is; `false` where it isn't checked.
fn keep_line(
    alloc: Global,
    bytes: &[u8],
    mounts: &[Name],
    commands: &mut Vec<Option<Command>>,
) -> Result<bool, AllocError>
    requires { mounts.now ≡ mount ∷ [] }
    ensures { IfOk result (IsLineRead bytes.now commands.old.items commands.new.items) }
{
    match read_command(alloc, bytes, mounts) {
        Ok(command) => keep_checked(checked(command), commands),
        Err(LineError::Memory) => Err(AllocError),
        Err(_) => keep_checked(Some(None), commands),
    }
}

// Keeps what is kept of a line, if it is checked.
fn keep_checked(
    kept: Option<Option<Command>>,
    commands: &mut Vec<Option<Command>>,
) -> Result<bool, AllocError>
    ensures { IfOk result (IsKeptIfChecked kept commands.old.items commands.new.items) }
{
    match kept {
        Some(command) => {
            commands.push(command)?;
            Ok(true)
        }
        None => Ok(false),
    }
}

// What is kept of a line that is this command, if it is checked.
fn checked(command: Command) -> Option<Option<Command>>
    requires { IsSound (mount ∷ []) command }
    ensures { IsCheckedForm (form_of command) result }
{
    match command {
        Command::Open { plan, .. } => checked_open(&plan),
        Command::Read { name, steps, down } => match down {
            Some(_) => None,
            None => Some(Some(Command::Read {
                name,
                steps,
                down: None,
            })),
        },
        Command::Join { .. } => None,
        Command::Resize { .. } => None,
        Command::Resolve { .. } => None,
        command => Some(Some(command)),
    }
}

// Nothing is kept of an open line.
fn checked_open(plan: &OpenPlan) -> Option<Option<Command>>
    ensures { (name : ListOf ℕ) → IsCheckedForm (opening name plan.now) result }
{
    if has_zarr3(plan.leaves.items()) {
        None
    } else {
        Some(None)
    }
}

fn has_zarr3(leaves: &[SpecLeaf]) -> bool
    ensures { result ≡ list_any is_zarr3 leaves.now }
{
    leaves.iter().any(|leaf| is_zarr3(leaf))
}

fn is_zarr3(leaf: &SpecLeaf) -> bool
    ensures { result ≡ is_zarr3 leaf.now }
{
    match leaf {
        SpecLeaf::Zarr3 { .. } => true,
        SpecLeaf::Zarr { .. } | SpecLeaf::N5 { .. } | SpecLeaf::Given { .. } => false,
    }
}
