// What each line of scripts opens, outside of transactions.
ghost use Rattle.std.specs.Prelude.{◌≡◌, ◌<◌, [], ◌++◌, IfOk, OnOk, length, slice_index_or, slice_set, false, List, ℕ};
ghost use Rattle.std.specs.List.{AllByRecursion};
ghost use Rattle.transcript_cut.specs.Cuttings.{lines_kept};
ghost use Rattle.transcript_cut.specs.Keeping.{AreCommandsOf, IsCommandOf};
ghost use Rattle.transcript_cut.specs.Transcript.{Told};
ghost use Rattle.transcript_cut.specs.Said.{AreSaid};
ghost use Rattle.transcript_cut.specs.declared.said.Said.{Said as SaidOf};
ghost use Rattle.transcript_cut.specs.Spans.{line_at, IsPlaced};
ghost use Rattle.stated_arrays.specs.Acts.{IsActOf, stands_by, IsSoundAct, leaves_by};
ghost use Rattle.stated_arrays.specs.Lines.{AreKept, IsNewLine, IsKeptBehind, IsSoundLine};

use crate::acts::{Act, act_of, stands_behind};
use cells::List;
use std::alloc::{AllocError, Global};
use transcript_cut::{Command, Said, SpecLeaf};

/// What a line opens, as far as its leaves were given numbers: the leaves that are left, for each other one the number that it takes, if
/// it takes one, and how many of the numbers that its answer prints were taken.
#[derive(Debug, Drop)]
pub struct OpenLine {
    pub rest: Vec<SpecLeaf>,
    pub takings: Vec<Option<u64>>,
    pub taken: usize,
}

/// What each line opens, of which nothing was given a number; a line in a transaction opens nothing.
pub fn keep_lines(
    alloc: Global,
    scripts: &[List<u8>],
    said: &[Said],
    commands: &[Option<Command>],
) -> Result<Vec<OpenLine>, AllocError>
    requires placed { AllByRecursion (λ (s : SaidOf). IsPlaced scripts.now s.line) said.now }
    requires commands { AreCommandsOf (lines_kept scripts.now said.now) commands.now }
    ensures kept { IfOk result (λ lines. (transcript : List ℕ) (told : List Told)
        → AreSaid scripts.now transcript said.now told → AreKept [] told lines.items) }
    ensures sound { IfOk result (λ lines. AllByRecursion IsSoundLine lines.items) }
    ensures count { IfOk result (λ lines. length lines.items ≡ length said.now) }
{
    let mut standing = falses(alloc, scripts.len())?;
    keep_standing(alloc, scripts, said, commands, standing.as_mut_slice())
}

// The same, with whether a transaction of each session stands, where none does at first.
fn keep_standing(
    alloc: Global,
    scripts: &[List<u8>],
    said: &[Said],
    commands: &[Option<Command>],
    standing: &mut [bool],
) -> Result<Vec<OpenLine>, AllocError>
    requires placed { AllByRecursion (λ (s : SaidOf). IsPlaced scripts.now s.line) said.now }
    requires commands { AreCommandsOf (lines_kept scripts.now said.now) commands.now }
    requires sessions { length standing.old ≡ length scripts.now }
    requires none { (k : ℕ) → slice_index_or standing.old k false ≡ false }
    ensures kept { IfOk result (λ lines. (transcript : List ℕ) (told : List Told)
        → AreSaid scripts.now transcript said.now told → AreKept [] told lines.items) }
    ensures sound { IfOk result (λ lines. AllByRecursion IsSoundLine lines.items) }
    ensures count { IfOk result (λ lines. length lines.items ≡ length said.now) }
{
    let mut lines = Vec::with_capacity(alloc, said.len())?;
    keep_all(alloc, scripts, said, commands, standing, &mut lines)?;
    Ok(lines)
}

// As many as are wanted.
fn falses(alloc: Global, count: usize) -> Result<Vec<bool>, AllocError>
    ensures len { IfOk result (λ all. length all.items ≡ count) }
    ensures none { IfOk result (λ all. (k : ℕ) → slice_index_or all.items k false ≡ false) }
{
    let mut all = Vec::with_capacity(alloc, count)?;
    for _k in 0..count {
        all.push(false)?;
    }
    Ok(all)
}

// Goes over the lines with whether a transaction of each session stands.
fn keep_all(
    alloc: Global,
    scripts: &[List<u8>],
    said: &[Said],
    commands: &[Option<Command>],
    standing: &mut [bool],
    lines: &mut Vec<OpenLine>,
) -> Result<(), AllocError>
    requires placed { AllByRecursion (λ (s : SaidOf). IsPlaced scripts.now s.line) said.now }
    requires commands { AreCommandsOf (lines_kept scripts.now said.now) commands.now }
    requires sessions { length standing.old ≡ length scripts.now }
    requires none { (k : ℕ) → slice_index_or standing.old k false ≡ false }
    requires first { lines.old.items ≡ [] }
    ensures kept { OnOk result ((transcript : List ℕ) (told : List Told) → AreSaid scripts.now transcript said.now told
        → AreKept [] told lines.new.items) }
    ensures sound { OnOk result (AllByRecursion IsSoundLine lines.new.items) }
    ensures count { OnOk result (length lines.new.items ≡ length said.now) }
{
    for place in 0..said.len() {
        let line = &said[place];
        keep_line(alloc, scripts, line, &commands[place], standing, lines)?;
    }
    Ok(())
}

// Keeps what one line more opens.
fn keep_line(
    alloc: Global,
    scripts: &[List<u8>],
    line: &Said,
    command: &Option<Command>,
    standing: &mut [bool],
    lines: &mut Vec<OpenLine>,
) -> Result<(), AllocError>
    requires placed { IsPlaced scripts.now line.now.line }
    requires command { IsCommandOf (line_at scripts.now line.now.line) command.now }
    requires session { line.now.line.session < length standing.old }
    ensures { OnOk result (IsKeptBehind scripts.now line.now standing.old standing.new lines.old.items
        lines.new.items) }
{
    match act_of(alloc, scripts, line.line, command) {
        Ok(act) => keep_act(alloc, line, standing, lines, act),
        Err(e) => Err(e),
    }
}

// The same by what the line asks for.
fn keep_act(
    alloc: Global,
    line: &Said,
    standing: &mut [bool],
    lines: &mut Vec<OpenLine>,
    act: Act,
) -> Result<(), AllocError>
    requires { line.now.line.session < length standing.old }
    ensures standing { standing.new ≡ slice_set standing.old line.now.line.session
        (stands_by act line.now.numbers (slice_index_or standing.old line.now.line.session false)) }
    ensures line { OnOk result (IsNewLine (leaves_by act (slice_index_or standing.old line.now.line.session false))
        lines.old.items lines.new.items) }
{
    let session = line.line.session as usize;
    let stands = standing[session];
    standing[session] = stands_behind(stands, &act, &line.numbers);
    push_line(alloc, lines, stands, act)
}

fn push_line(
    alloc: Global,
    lines: &mut Vec<OpenLine>,
    stands: bool,
    act: Act,
) -> Result<(), AllocError>
    ensures { OnOk result (IsNewLine (leaves_by act stands) lines.old.items lines.new.items) }
{
    lines.push(OpenLine {
        rest: leaves_in(alloc, stands, act),
        takings: Vec::new(alloc),
        taken: 0,
    })?;
    Ok(())
}

// The leaves that a line opens, where no transaction stands.
fn leaves_in(alloc: Global, stands: bool, act: Act) -> Vec<SpecLeaf>
    ensures { result.items ≡ leaves_by act stands }
{
    if stands {
        return Vec::new(alloc);
    }
    match act {
        Act::Open { leaves } => leaves.into_inner(),
        Act::Begin => Vec::new(alloc),
        Act::Commit => Vec::new(alloc),
        Act::Abort => Vec::new(alloc),
        Act::Other => Vec::new(alloc),
    }
}
