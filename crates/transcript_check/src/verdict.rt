ghost use Rattle.std.specs.Prelude.{◌≡◌};
ghost use Rattle.transcript_check.specs.declared.verdict.Verdict.TheVariants.{NotChecked as NotCheckedAt};

use transcript_fits::AskedLine;

/// What a check says of a transcript.
#[derive(Clone, Copy, Debug, PartialEq, Eq)]
pub enum Verdict {
    /// It fits, and states a history of so many events.
    Yes { events: u64 },
    /// It doesn't fit: the least part of what it means to fit that fails, which are counted from 1.
    No { part: u32 },
    /// It isn't checked, because of this line of the script of this session, which are counted from 1 and from 0.
    NotChecked { session: u32, line: u64 },
}

impl Verdict {
    /// It isn't checked because of this line.
    pub(crate) fn not_checked(line: AskedLine) -> Verdict
        ensures { result ≡ NotCheckedAt line.session line.number }
    {
        Verdict::NotChecked {
            session: line.session,
            line: line.number,
        }
    }
}
