ghost use Rattle.std.specs.Prelude.{◌≡◌, ℕ, List, All, length, Ok};
ghost use Rattle.cells.specs.Numbers.{IsWord};
ghost use Rattle.cells.specs.Places.{cell_count};
ghost use Rattle.cells.specs.declared.dtype.Dtype.{Dtype};
ghost use Rattle.script_lines.specs.NestedWords.{nested_words};
ghost use Rattle.answer_text.specs.Text.{answer_text};
ghost use Rattle.answer_text.specs.declared.answer.Answer.{Answer};
ghost use Rattle.answer_data.specs.Answers.{answer_data};
ghost use Rattle.answer_data.specs.Lines.{IsAnswerText};
ghost use Rattle.answer_data.specs.Members.{values_data};
ghost use Rattle.answer_data.specs.Printable.{IsPrintable};

/// The text of a printable answer is one line of compact JSON with an LF, and reads back as the answer's data, which
/// has the answer's line.
pub fn reads_back()
    ensures { (answer : Answer) → IsPrintable answer
        → IsAnswerText answer.line (answer_text answer) (answer_data answer) }
{}

/// From the values of a shape its words are read back: one of the dtype for each cell, in C order.
pub fn values_read_back()
    ensures { (dtype : Dtype) (shape words : List ℕ) → length words ≡ cell_count shape → All (IsWord dtype) words
        → nested_words dtype shape (values_data dtype shape words) ≡ Ok words }
{}
