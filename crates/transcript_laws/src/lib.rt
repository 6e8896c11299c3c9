//! What it means that a transcript fits its scripts: that the values and numbers that it prints are those of a legal history.
//!
//! There is no code here. `Fits` says it of scripts and a transcript as bytes, and `IsVerdict` of a checker's answer. Others rest on these
//! definitions and on the laws in `proofs/Laws`.
#![tactic(auto)]

ghost use Rattle.transcript_laws.specs.ReadConflict as conflict;
ghost use Rattle.transcript_laws.specs.Outputs.{OutputsAreAnswered, OutputsAreCut, OutputsAreNumbered};
ghost use Rattle.transcript_laws.specs.Outputs.{OutputsArePrintable, OutputsAreYes, OutputsFit, OutputsHaveWords};
ghost use Rattle.transcript_laws.specs.Outputs.{OutputsState, PrintableOutputsFit};
ghost use Rattle.transcript_laws.specs.StatedCommits.{StatedCommitsAreSound};
ghost use Rattle.transcript_laws.specs.ThreeCells.{scripts, transcript};
ghost use Rattle.transcript_laws.specs.ThreeCellsNumberless as numberless;
ghost use Rattle.transcript_laws.specs.ThreeCellsWrong.{wrong_commit, wrong_value};
ghost use Rattle.transcript_laws.specs.Verdicts.{IsVerdict, HasOneCut, HasOneHistory, HaveOneVerdict, Part5Follows, yes, no};

/// A transcript is cut into answers in one way.
pub fn cut_is_one()
    ensures { HasOneCut }
{}

/// What is told of the lines states one history at most.
pub fn history_is_one()
    ensures { HasOneHistory }
{}

/// One verdict at most is right.
pub fn verdict_is_one()
    ensures { HaveOneVerdict }
{}

/// Answers that fit are none of a store that can't make all changes together or didn't start empty, nor of an array
/// that shrank.
pub fn part_5_follows()
    ensures { Part5Follows }
{}

/// A script that opens an array of three cells, writes it and reads it back: its transcript fits, and three wrong ones
/// don't.
pub fn three_cells_are_judged()
    ensures fits { IsVerdict scripts transcript (yes 2) }
    ensures wrong_number { IsVerdict scripts wrong_commit (no 2) }
    ensures wrong_word { IsVerdict scripts wrong_value (no 4) }
    ensures no_number { IsVerdict scripts numberless.transcript (no 4) }
{}

/// Two sessions of which one has a conflict: their transcript fits, and three with wrong numbers in the conflict don't.
pub fn conflict_is_judged()
    ensures fits { IsVerdict conflict.scripts (conflict.transcript_of conflict.text_4) (yes 2) }
    ensures not_later { IsVerdict conflict.scripts (conflict.transcript_of conflict.late_4) (no 4) }
    ensures same_event { IsVerdict conflict.scripts (conflict.transcript_of conflict.same_4) (no 4) }
    ensures own_event { IsVerdict conflict.scripts (conflict.transcript_of conflict.own_4) (no 4) }
{}

/// What logs print is cut into their answers, line by line, where these read back.
pub fn outputs_are_cut()
    ensures { OutputsAreCut }
{}

/// What logs print has the number of each event once, and those of a session rise.
pub fn outputs_are_numbered()
    ensures { OutputsAreNumbered }
{}

/// The values that logs print have a word of their dtype for each cell.
pub fn outputs_have_words()
    ensures { OutputsHaveWords }
{}

/// What logs print states the history.
pub fn outputs_state()
    ensures { OutputsState }
{}

/// Each answer that logs print is one that its line may have.
pub fn outputs_are_answered()
    ensures { OutputsAreAnswered }
{}

/// What logs print fits their scripts, where the answers read back.
pub fn printable_outputs_fit()
    ensures fits { PrintableOutputsFit }
    // What is left to show for all logs.
    ensures rest { OutputsArePrintable → OutputsFit }
{}

/// What logs print is answered yes, by as many events as there are, where the answers read back.
pub fn outputs_are_yes()
    ensures { OutputsAreYes }
{}

/// Each commit that lines of checked scripts state has no key, and is through views of arrays of the history, whose cells lie in the
/// arrays' shapes; a Write has a word of its view's dtype for each cell.
pub fn stated_commits_are_sound()
    ensures { StatedCommitsAreSound }
{}

pub use answer_data::{
    Answer, Body, BuildCause, BuildError, JoinError, MetaWhy, SpecError, Why, build, render,
};
pub use line_meanings::{Command, LineError, OpenPlan, SpecLeaf, Tree, joined, read_command};
pub use state_laws::{array_ref, form_of, given_info, new_info};
