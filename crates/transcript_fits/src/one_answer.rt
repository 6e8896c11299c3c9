// Lines that have one answer, whatever the history.
ghost use Rattle.std.specs.Prelude.{IfOk};
ghost use Rattle.transcript_fits.specs.LineFits.{AreOneAnswer, IsPlainFit};

use crate::line_fit::{LineFit, ToldLine, fit_if};
use open_fits::is_answered;
use stated_history::{Answer, Body};
use std::alloc::{AllocError, Global};

/// Whether a line that has this one answer is answered so.
///
/// # Errors
/// An allocation failed.
pub(crate) fn fit_one(alloc: Global, line: ToldLine, body: Body) -> Result<LineFit, AllocError>
    ensures fits { IfOk result (AreOneAnswer line.entry body) }
    ensures plain { IfOk result IsPlainFit }
{
    let answer = Answer {
        line: line.line,
        body,
    };
    let fits = is_answered(alloc, &answer, line.text)?;
    Ok(fit_if(fits))
}
