// What is known of a stated history.
ghost use Rattle.transcript_check.specs.Stated.{StatedMayBeSwept};

/// A history that lines of checked scripts state may be swept over where its openings are legal, whether its commits are or not: each of
/// its commits has no key, and is through views of arrays that the history opens, with a word for each cell that it writes.
pub fn stated_history_may_be_swept()
    ensures { StatedMayBeSwept }
{}
