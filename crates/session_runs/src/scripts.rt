// The lines of a script.
ghost use Rattle.std.specs.Prelude.{◌≡◌, ◌<◌, ◌^◌, [], length, true, false};
ghost use Rattle.session_runs.specs.Scripts.{HasRunScript, IsGivenMore, IsGivenLast, asked_line};
ghost use Rattle.indexmap.specs.IndexMap.{get_by_text};
ghost use Rattle.session_runs.specs.Session.{HasMounts, MayGoOn, IsSessionOn, session_with};
ghost use Rattle.session_openings.specs.Turns.{HasPassed};

use crate::session::Session;
use cells::Name;
use kv_face::KvStore;
use script_lines::{cut, is_blank};
use session_openings::{Around, Gate};
use std::sync::Wait;

/// Gives a session that was given no line yet the lines of a script, up to its end, or to where memory was wanting; these are the names of
/// the mounts.
pub fn run_script<K: KvStore, R: Wait, G: Gate>(
    around: &Around<K, R, G>,
    mounts: &[Name],
    session: &mut Session<K>,
    script: &[u8],
)
    requires going { session.old.ended ≡ false }
    requires on { IsSessionOn around.now.book.now (session_with session.old.pass
        (get_by_text session.old.names) session.old.txn session.old.log.items session.old.ended) [] }
    requires mounts { HasMounts around.now.book.now mounts.now }
    requires short { length script.now < 2 ^ 62 }
    ensures run { HasRunScript around.now.book.now mounts.now script.now
        (session_with session.new.pass
        (get_by_text session.new.names) session.new.txn session.new.log.items session.new.ended) }
    ensures passed { HasPassed around.now.book.now session.old.pass session.new.pass }
{
    let mut line = 0u64;
    let mut rest = Some(script);
    while let Some(bytes) = rest {
        let (first, after) = cut(bytes);
        line += 1;
        if !given(around, mounts, session, line, first) {
            return;
        }
        rest = after;
    }
}

// Gives a session a line, which asks nothing where it is blank, and tells whether it may be given more.
fn given<K: KvStore, R: Wait, G: Gate>(
    around: &Around<K, R, G>,
    mounts: &[Name],
    session: &mut Session<K>,
    line: u64,
    bytes: &[u8],
) -> bool
    requires going { session.old.ended ≡ false }
    requires on { MayGoOn around.now.book.now session.old.pass (get_by_text session.old.names) session.old.txn }
    requires mounts { HasMounts around.now.book.now mounts.now }
    ensures more { result ≡ true → IsGivenMore around.now.book.now
        (session_with session.old.pass
        (get_by_text session.old.names) session.old.txn session.old.log.items session.old.ended)
        (session_with session.new.pass
        (get_by_text session.new.names) session.new.txn session.new.log.items session.new.ended) line
        (asked_line mounts.now bytes.now) }
    ensures last { result ≡ false → IsGivenLast around.now.book.now
        (session_with session.old.pass
        (get_by_text session.old.names) session.old.txn session.old.log.items session.old.ended)
        (session_with session.new.pass
        (get_by_text session.new.names) session.new.txn session.new.log.items session.new.ended) line
        (asked_line mounts.now bytes.now) }
    ensures passed { HasPassed around.now.book.now session.old.pass session.new.pass }
{
    if is_blank(bytes) {
        return true;
    }
    match session.step(around, mounts, line, bytes) {
        Ok(()) => !session.ended,
        Err(_) => false,
    }
}
