//! That what a run prints reads back, and that a checker of transcripts has to answer yes to it.
//!
//! Others rest on a call and a law. `look_at_logs` does nothing, and says of logs what their type says: their texts are UTF-8 and their
//! numbers take 64 bits. By the law, what such logs print is answered yes by as many events as there are, where they are those of sessions that
//! ran all lines of checked scripts.
#![tactic(auto)]

ghost use Rattle.output_laws.specs.Flat.{OutputsAreFlat};
ghost use Rattle.output_laws.specs.Held.{DataIsHeld};
ghost use Rattle.output_laws.specs.Parts.{SmallAnswersArePrintable};
ghost use Rattle.output_laws.specs.Printed.{PrintedOutputsAreYes};
ghost use Rattle.output_laws.specs.Small.{StepsStaySmall};
ghost use Rattle.output_laws.specs.Whole.{FewOutputsAreYes};
ghost use Rattle.transcript_laws.specs.Outputs.{OutputsArePrintable, OutputsFit};
ghost use Rattle.output_laws.specs.TextSpecs.{SpecsAreTexts};

mod bodies;
mod causes;
mod logs;
mod looks;

/// The values of an output are along at most 32 dimensions.
pub fn outputs_are_flat()
    ensures { OutputsAreFlat }
{}

/// Of what bytes are as JSON each text is UTF-8, each integer takes 64 bits, and a list has at most half as many items as there are bytes.
pub fn data_is_held()
    ensures { DataIsHeld }
{}

/// Steps on a transform whose numbers take 64 bits and whose texts are UTF-8 give one, or a cause that says numbers of 64 bits.
pub fn steps_stay_small()
    ensures { StepsStaySmall }
{}

/// An answer reads back whose texts are UTF-8 and whose numbers take 64 bits, where its values are along at most 32 dimensions.
pub fn small_answers_are_printable()
    ensures { SmallAnswersArePrintable }
{}

/// A Spec whose texts are UTF-8 asks for arrays at mounts and paths of UTF-8. Where it has no plan, it is refused by a text of UTF-8.
pub fn specs_are_texts()
    ensures { SpecsAreTexts }
{}

/// The answers of an output read back, whoever printed them, where events, and bytes a script, are fewer than 2^64.
pub fn outputs_are_printable()
    ensures { OutputsArePrintable }
{}

/// Such an output fits, whoever printed it.
pub fn outputs_fit()
    ensures { OutputsFit }
{}

/// What such an output prints is answered yes, by as many events as there are, whoever printed it.
pub fn few_outputs_are_yes()
    ensures { FewOutputsAreYes }
{}

/// What an output prints is answered yes, by as many events as there are, where its answers are those of a program.
pub fn printed_outputs_are_yes()
    ensures { PrintedOutputsAreYes }
{}

pub use history::{Event, Kind, Mode, Op, Ops};
pub use logs::look_at_logs;
pub use transcript_laws::Answer;
