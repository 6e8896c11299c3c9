// One call of a session: `{"call":NAME, arguments}`.
ghost use Rattle.std.specs.Prelude.{OnOk};
ghost use Rattle.state_laws.specs.Agreement.{Opening};
ghost use Rattle.turn_book.specs.Passes.{BookView};
ghost use Rattle.transaction_cases.specs.Seats.{IsSeat, IsSeatThen, TakesBoth};

use crate::locals::open_local;
use crate::opens::{open, resize};
use crate::seats::Seat;
use crate::txn_calls::{begin, commit, read, write};
use case_lines::{Fault, text, told_line};
use kv_face::KvStore;
use serde_json::Value;
use session_runs::{Gate, State};
use std::alloc::Global;
use std::sync::Wait;
use turn_book::TurnBook;

pub(crate) fn answer<K: KvStore, R: Wait, G: Gate>(
    rt: &R,
    alloc: Global,
    v: &Value,
    book: &TurnBook<State<K>>,
    seat: &mut Seat<K>,
    gate: &G,
) -> Result<String, Fault>
    requires seat { IsSeat book.now seat.old.pass seat.old.arrays.items seat.old.txn }
    requires mounts { TakesBoth book.now.fixed.store.names }
    ensures seat { OnOk result (IsSeatThen book.now seat.old.pass seat.new.pass seat.new.arrays.items seat.new.txn) }
{
    match text(v, "call")? {
        "open" => open(rt, alloc, v, book, seat),
        "local" => open_local(rt, alloc, v, book, seat),
        "resize" => resize(rt, alloc, v, book, seat),
        "begin" => begin(alloc, v, &mut seat.txn),
        "write" => write(alloc, v, seat),
        "read" => read(rt, alloc, v, book, seat, gate),
        "commit" => commit(rt, alloc, book, seat, gate),
        "abort" => abort(alloc, seat),
        _ => Err(Fault::Line),
    }
}

fn abort<K: KvStore>(alloc: Global, seat: &mut Seat<K>) -> Result<String, Fault>
    ensures seat { (book : BookView Opening) → IsSeat book seat.old.pass seat.old.arrays.items seat.old.txn
        → OnOk result (IsSeatThen book seat.old.pass seat.new.pass seat.new.arrays.items seat.new.txn) }
{
    seat.txn = None;
    told_line(alloc, &"aborted")
}
