// What a line is answered.
ghost use Rattle.std.specs.Prelude.{◌≡◌, ◌≢◌, ◌⊎◌, Err, IfErr, length};
ghost use Rattle.session_openings.specs.declared.Body.TheVariants as printed;
ghost use Rattle.indexmap.specs.IndexMap.{get_by_text};
ghost use Rattle.session_openings.specs.Refusals.{refusal_body};
ghost use Rattle.session_openings.specs.Form.{form_of, IsSound};
ghost use Rattle.session_openings.specs.Meanings.{line_of, line_of_bytes};
ghost use Rattle.session_runs.specs.Session.{HasMounts, MayGoOn, IsLineTold};
ghost use Rattle.session_openings.specs.Caused.{IsCausedBy};
ghost use Rattle.session_openings.specs.Failures.{TellsFailures};
ghost use Rattle.session_openings.specs.Standing.{session_state, transaction_in};
ghost use Rattle.session_openings.specs.Turns.{HasPassed, added_by};

use crate::commands::{joined, opened, resized, resolved, shown, viewed, written};
use cells::Name;
use history::Mode;
use kv_face::KvStore;
use line_parts::LineError;
use session_openings::{
    Around, Body, Command, Gate, Names, State, Txn, abort, begin, commit, read_command, refusal,
};
use std::alloc::Global;
use std::sync::Wait;
use turn_book::Pass;

/// What the bytes of a line are answered, where these are the names of the mounts.
pub(crate) fn answered<K: KvStore, R: Wait, G: Gate>(
    around: &Around<K, R, G>,
    pass: &mut Pass<State<K>>,
    names: &mut Names,
    txn: &mut Option<Txn>,
    mounts: &[Name],
    line: u64,
    bytes: &[u8],
) -> Body
    requires on { MayGoOn around.now.book.now pass.old (get_by_text names.old) txn.old }
    requires mounts { HasMounts around.now.book.now mounts.now }
    ensures told { IsLineTold around.now.book.now pass.old pass.new (get_by_text names.old) txn.old line
        (line_of_bytes mounts.now bytes.now) (get_by_text names.new) txn.new result }
    ensures caused { IsCausedBy around.now.book.now pass.old pass.new
        (session_state (get_by_text names.old) (length pass.old.seen) txn.old) line
        (line_of_bytes mounts.now bytes.now) (get_by_text names.new) (transaction_in txn.new) result }
    ensures failures { TellsFailures (added_by pass.old pass.new) result }
    ensures passed { HasPassed around.now.book.now pass.old pass.new }
    ensures on { result ≢ printed.Memory → MayGoOn around.now.book.now pass.new (get_by_text names.new) txn.new }
{
    match read_command(around.alloc, bytes, mounts) {
        Ok(command) => obeyed(around, pass, names, txn, mounts, line, command),
        Err(error) => refused(around.alloc, error),
    }
}

fn refused(alloc: Global, error: LineError) -> Body
    ensures { (result ≡ refusal_body error) ⊎ (result ≡ printed.Memory) }
{
    match refusal(alloc, error) {
        Ok(body) => body,
        Err(_) => Body::Memory,
    }
}

// What a command is answered.
fn obeyed<K: KvStore, R: Wait, G: Gate>(
    around: &Around<K, R, G>,
    pass: &mut Pass<State<K>>,
    names: &mut Names,
    txn: &mut Option<Txn>,
    mounts: &[Name],
    line: u64,
    command: Command,
) -> Body
    requires on { MayGoOn around.now.book.now pass.old (get_by_text names.old) txn.old }
    requires mounts { HasMounts around.now.book.now mounts.now }
    requires sound { IsSound mounts.now command }
    ensures told { IsLineTold around.now.book.now pass.old pass.new (get_by_text names.old) txn.old line
        (line_of (form_of command)) (get_by_text names.new) txn.new result }
    ensures caused { IsCausedBy around.now.book.now pass.old pass.new
        (session_state (get_by_text names.old) (length pass.old.seen) txn.old) line
        (line_of (form_of command)) (get_by_text names.new) (transaction_in txn.new) result }
    ensures failures { TellsFailures (added_by pass.old pass.new) result }
    ensures passed { HasPassed around.now.book.now pass.old pass.new }
    ensures on { result ≢ printed.Memory → MayGoOn around.now.book.now pass.new (get_by_text names.new) txn.new }
{
    match command {
        Command::Open { name, plan } => opened(around, pass, names, txn, name, plan),
        Command::View {
            name,
            of,
            transform,
            steps,
        } => viewed(around.alloc, names, name, of, transform, steps),
        Command::Join {
            name,
            form,
            layers,
            transform,
            steps,
        } => joined(around.alloc, names, name, form, layers, transform, steps),
        Command::Read { name, steps, down } => {
            shown(around, pass, names, line, txn, name, steps, down)
        }
        Command::Write {
            name,
            steps,
            values,
        } => written(around, pass, names, line, txn, name, steps, values),
        Command::Begin {
            atomic,
            repeatable_read,
        } => begin(
            around.alloc,
            line,
            Mode {
                atomic,
                repeatable_read,
            },
            txn,
        ),
        Command::Commit => commit(around, pass, txn),
        Command::Abort => abort(line, txn),
        Command::Resize { name, shape } => resized(around, pass, names, txn, name, shape),
        Command::Resolve { name } => resolved(around, pass, names, txn, name),
    }
}
