// Opening arrays: `{"call":"open","path":P,FORMAT:metadata,"open":B,"create":B}`, and one of the run:
// `{"call":"local","dtype":D,"shape":[..],"numbers":[..]}`.
ghost use Rattle.state_cases.specs.Ready.{IsReady};

use crate::owner::owner;
use case_lines::{
    Fault, dense, dtype, is_true, items, may_be_local, member, sizes, text, told_line, want,
};
use cells::Dtype;
use chunk_forms::Want;
use kv_face::KvStore;
use serde_json::Value;
use shared_state::State;
use std::alloc::Global;

pub(crate) fn open<K: KvStore>(
    alloc: Global,
    v: &Value,
    state: &mut State<K>,
) -> Result<String, Fault>
    requires { IsReady (K.seen state.old.store) state.old.log }
    ensures { IsReady (K.seen state.new.store) state.new.log }
{
    let want = want(alloc, v)?;
    opened(alloc, owner(v)?, text(v, "path")?, &want, v, state)
}

fn opened<K: KvStore>(
    alloc: Global,
    owner: u32,
    path: &str,
    want: &Want,
    v: &Value,
    state: &mut State<K>,
) -> Result<String, Fault>
    requires { IsReady (K.seen state.old.store) state.old.log }
    ensures { IsReady (K.seen state.new.store) state.new.log }
{
    let may_open = is_true(v, "open");
    let may_create = is_true(v, "create");
    let answer = state.open(owner, "memory", path, want, may_open, may_create);
    told_line(alloc, &answer)
}

pub(crate) fn open_local<K: KvStore>(
    alloc: Global,
    v: &Value,
    state: &mut State<K>,
) -> Result<String, Fault>
    requires { IsReady (K.seen state.old.store) state.old.log }
    ensures { IsReady (K.seen state.new.store) state.new.log }
{
    let dtype = dtype(v, "dtype")?;
    let shape = sizes(alloc, v, "shape")?;
    of_shape(alloc, dtype, &shape, v, state)
}

fn of_shape<K: KvStore>(
    alloc: Global,
    dtype: Dtype,
    shape: &[u64],
    v: &Value,
    state: &mut State<K>,
) -> Result<String, Fault>
    requires { IsReady (K.seen state.old.store) state.old.log }
    ensures { IsReady (K.seen state.new.store) state.new.log }
{
    let owner = owner(v)?;
    let numbers = items(member(v, "numbers")?)?;
    if !may_be_local(alloc, shape)? {
        return Err(Fault::Line);
    }
    let start = dense(alloc, dtype, shape, numbers)?;
    let answer = state.open_local(owner, start);
    told_line(alloc, &answer)
}
