// Whether the answer to a line is one that it may have.
ghost use Rattle.std.specs.Prelude.{◌≡◌, true, false};
ghost use Rattle.transcript_fits.specs.declared.line_fit.LineFit.TheVariants as fit;

use open_fits::{EventNumbers, OpenQuestion, Waiting, Window};
use stated_history::SaidAnswer;

/// Whether the answer to a line is one that it may have.
#[derive(Debug, Drop)]
pub(crate) enum LineFit {
    /// It isn't.
    Unfit,
    /// It is.
    Fits,
    /// It is exactly where a leaf of the question is refused as the answer says.
    IfRefused { question: OpenQuestion },
    /// It is exactly where what is waited for is met.
    IfMet { waiting: Waiting },
}

/// A line as it is told: its session, its number, the numbers of events between which it may have looked, and its answer: the numbers of
/// events that it prints, its text with its LF, and what it reads as, or its text to be read.
#[derive(Clone, Copy)]
pub(crate) struct ToldLine<'l> {
    pub(crate) owner: u32,
    pub(crate) line: u64,
    pub(crate) window: Window,
    pub(crate) numbers: &'l EventNumbers,
    pub(crate) text: &'l [u8],
    pub(crate) answer: &'l SaidAnswer<'l>,
}

/// It fits, or it doesn't.
pub(crate) fn fit_if(fits: bool) -> LineFit
    ensures yes { fits ≡ true → result ≡ fit.Fits }
    ensures no { fits ≡ false → result ≡ fit.Unfit }
{
    if fits { LineFit::Fits } else { LineFit::Unfit }
}
