// Going over the lines of scripts.
ghost use Rattle.std.specs.Prelude.{◌≡◌, ◌<◌, ◌≤◌, ◌+◌, ◌^◌, [], ◌∷◌, None, IfSome, length, drop};
ghost use Rattle.script_lines.specs.Script.{lines_of};
ghost use Rattle.transcript_laws.specs.Transcript.{lines_from};
ghost use Rattle.transcript_cut.specs.Spans.{bytes_at, IsSpanOf, line_at, IsPlaced};
ghost use Rattle.transcript_cut.specs.Cursors.{lines_behind};

use crate::line_end::line_end;
use crate::said::{AskedLine, Span};
use cells::List;
use script_lines::is_blank;

/// Where the next line of some scripts begins: in the script of a session, at a byte, with a number.
#[derive(Clone, Copy, Debug)]
pub struct Cursor {
    pub session: u32,
    pub number: u64,
    pub from: usize,
    ghost counted: { number ≤ from + 1 },
}

impl Cursor {
    /// Before the first line of the first script.
    pub fn first() -> Cursor
        ensures session { result.session ≡ 0 }
        ensures number { result.number ≡ 1 }
        ensures from { result.from ≡ 0 }
    {
        Cursor {
            session: 0,
            number: 1,
            from: 0,
        }
    }

    /// The next line that isn't blank; the cursor stands behind it then. `None` where there is none.
    pub fn next_line(&mut self, scripts: &[List<u8>]) -> Option<AskedLine>
        requires { length scripts.now < 2 ^ 32 }
        ensures none { result ≡ None → lines_behind scripts.now self.old.session self.old.number self.old.from ≡ [] }
        ensures some { IfSome result (λ line. lines_behind scripts.now self.old.session self.old.number self.old.from
            ≡ line_at scripts.now line ∷ lines_behind scripts.now self.new.session self.new.number self.new.from) }
        ensures placed { IfSome result (IsPlaced scripts.now) }
    {
        match line_from(scripts, self.session, self.number, self.from) {
            Some(line) => {
                *self = Cursor {
                    session: line.session,
                    number: line.number + 1,
                    from: line.bytes.upto + 1,
                };
                Some(line)
            }
            None => None,
        }
    }
}

// The first line of the scripts that isn't blank, from a byte of a session's script on, at which the line of this number begins.
fn line_from(
    scripts: &[List<u8>],
    mut session: u32,
    mut number: u64,
    mut from: usize,
) -> Option<AskedLine>
    requires few { length scripts.now < 2 ^ 32 }
    requires counted { number ≤ from + 1 }
    ensures none { result ≡ None → lines_behind scripts.now session number from ≡ [] }
    ensures some { IfSome result (λ line. lines_behind scripts.now session number from
        ≡ line_at scripts.now line ∷ lines_behind scripts.now line.session (line.number + 1) (line.bytes.upto + 1)) }
    ensures placed { IfSome result (IsPlaced scripts.now) }
    ensures counted { IfSome result (λ line. line.number ≤ line.bytes.from + 1) }
    ensures short { IfSome result (λ line. line.bytes.upto < 2 ^ 63) }
{
    while (session as usize) < scripts.len() {
        let script = scripts[session as usize].items();
        if let Some(line) = line_in(script, session, number, from) {
            return Some(line);
        }
        session += 1;
        number = 1;
        from = 0;
    }
    None
}

// The first line of a session's script that isn't blank, from a byte on, at which the line of this number begins.
fn line_in(script: &[u8], session: u32, mut number: u64, mut from: usize) -> Option<AskedLine>
    requires { number ≤ from + 1 }
    ensures none { result ≡ None → lines_from session number (lines_of (drop from script.now)) ≡ [] }
    ensures some { IfSome result (λ line. lines_from session number (lines_of (drop from script.now))
        ≡ record { session = session; number = line.number; bytes = bytes_at line.bytes script.now }
        ∷ lines_from session (line.number + 1) (lines_of (drop (line.bytes.upto + 1) script.now))) }
    ensures session { IfSome result (λ line. line.session ≡ session) }
    ensures within { IfSome result (λ line. IsSpanOf script.now line.bytes) }
    ensures counted { IfSome result (λ line. line.number ≤ line.bytes.from + 1) }
    ensures short { IfSome result (λ line. line.bytes.upto < 2 ^ 63) }
{
    while from < script.len() {
        let (_, rest) = script.split_at(from);
        let end = line_end(rest);
        let (line, _) = rest.split_at(end);
        if !is_blank(line) {
            return Some(AskedLine {
                session,
                number,
                bytes: Span {
                    from,
                    upto: from + end,
                },
            });
        }
        number += 1;
        from += end + 1;
    }
    None
}
