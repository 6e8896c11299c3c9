// An array of the run: `{"call":"local","dtype":D,"shape":[..],"numbers":[..]}`.
ghost use Rattle.std.specs.Prelude.{◌≤◌, ◌^◌, IfOk, OnOk, map, max};
ghost use Rattle.cells.specs.Places.{cell_count};
ghost use Rattle.transaction_cases.specs.Seats.{IsSeat, IsSeatThen};

use crate::opens::opened_told;
use crate::seats::Seat;
use case_lines::{Fault, dense, dtype, items, may_be_local, member, sizes};
use cells::{Dense, Dtype};
use kv_face::KvStore;
use serde_json::Value;
use session_runs::{State, open_given_in_turn};
use std::alloc::Global;
use std::sync::Wait;
use turn_book::TurnBook;

pub(crate) fn open_local<K: KvStore, R: Wait>(
    rt: &R,
    alloc: Global,
    v: &Value,
    book: &TurnBook<State<K>>,
    seat: &mut Seat<K>,
) -> Result<String, Fault>
    requires seat { IsSeat book.now seat.old.pass seat.old.arrays.items seat.old.txn }
    ensures seat { OnOk result (IsSeatThen book.now seat.old.pass seat.new.pass seat.new.arrays.items seat.new.txn) }
{
    let dtype = dtype(v, "dtype")?;
    let shape = sizes(alloc, v, "shape")?;
    let start = given(alloc, dtype, &shape, items(member(v, "numbers")?)?)?;
    open_given(rt, alloc, book, seat, start)
}

fn given(alloc: Global, dtype: Dtype, shape: &[u64], numbers: &[Value]) -> Result<Dense, Fault>
    ensures { IfOk result (λ d. cell_count (map (max 1) d.shape) ≤ 2 ^ 22) }
{
    if !may_be_local(alloc, shape)? {
        return Err(Fault::Line);
    }
    dense(alloc, dtype, shape, numbers)
}

fn open_given<K: KvStore, R: Wait>(
    rt: &R,
    alloc: Global,
    book: &TurnBook<State<K>>,
    seat: &mut Seat<K>,
    start: Dense,
) -> Result<String, Fault>
    requires seat { IsSeat book.now seat.old.pass seat.old.arrays.items seat.old.txn }
    requires small { cell_count (map (max 1) start.shape) ≤ 2 ^ 22 }
    ensures seat { OnOk result (IsSeatThen book.now seat.old.pass seat.new.pass seat.new.arrays.items seat.new.txn) }
{
    match open_given_in_turn(rt, book, &mut seat.pass, start) {
        Ok(opened) => opened_told(alloc, opened, &mut seat.arrays),
        Err(_) => Err(Fault::Memory),
    }
}
