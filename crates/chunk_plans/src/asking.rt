// What a turn tells of the chunks that a commit writes.
ghost use Rattle.std.specs.Prelude.{◌≡◌, Some, IfOk, map};
ghost use Rattle.std.specs.List.{AllByRecursion};
ghost use Rattle.chunk_forms.specs.Metadata as meta;
ghost use Rattle.history.specs.Arrays.{Known, known_after, form_of};
ghost use Rattle.shared_state.specs.Agreement.{Opening, Agrees, IsState, KeepsAgreement};
ghost use Rattle.chunk_plans.specs.Asking.{IsAsked, IsPart, IsUnderAt, part_in};

use crate::asked::{Asked, Part, Under};
use chunk_forms::Form;
use chunk_laying::{covers, is_gone};
use kv_face::KvStore;
use shared_state::State;
use std::alloc::{AllocError, Global};

/// What there is to tell of each chunk for which words are staged, in order. There is no call of the store.
///
/// # Errors
/// Want of memory alone.
pub fn ask_all<'a, K: KvStore>(
    alloc: Global,
    state: &mut State<K>,
    parts: Vec<Part<'a>>,
) -> Result<Vec<Asked<'a>>, AllocError>
    requires agrees { IsState (K.seen state.old.store) state.old.log }
    requires parts { AllByRecursion (IsPart state.old.log.events) parts.items }
    ensures asked { IfOk result (λ asked. (opening : Opening) → Agrees opening (K.seen state.old.store) state.old.log
        → AllByRecursion (IsAsked opening state.old.log.events) asked.items) }
    ensures parts { IfOk result (λ asked. map part_in asked.items ≡ parts.entry.items) }
    ensures events { state.new.log.events ≡ state.old.log.events }
    ensures store { state.new.store ≡ state.old.store }
    ensures kept { KeepsAgreement (K.seen state.old.store) state.old.log (K.seen state.new.store) state.new.log }
{
    let mut asked = Vec::new(alloc);
    for part in parts {
        asked.push(ask(state, part)?)?;
    }
    Ok(asked)
}

// What there is to tell of one.
fn ask<'a, K: KvStore>(state: &mut State<K>, part: Part<'a>) -> Result<Asked<'a>, AllocError>
    requires agrees { IsState (K.seen state.old.store) state.old.log }
    requires part { IsPart state.old.log.events part }
    ensures asked { IfOk result (λ a. (opening : Opening) → Agrees opening (K.seen state.old.store) state.old.log
        → IsAsked opening state.old.log.events a) }
    ensures part { IfOk result (λ a. a.part ≡ part.entry) }
    ensures events { state.new.log.events ≡ state.old.log.events }
    ensures store { state.new.store ≡ state.old.store }
    ensures kept { KeepsAgreement (K.seen state.old.store) state.old.log (K.seen state.new.store) state.new.log }
{
    let key = state.key(part.array, part.chunk)?;
    let resized = state.resized(part.array);
    let form = state.info(part.array)?;
    let under = under_of(state, part, &form)?;
    Ok(Asked {
        part,
        key,
        form,
        resized,
        under,
    })
}

// What stands under the staged words.
fn under_of<K: KvStore>(
    state: &mut State<K>,
    part: Part<'_>,
    form: &Form,
) -> Result<Under, AllocError>
    requires agrees { IsState (K.seen state.old.store) state.old.log }
    requires part { IsPart state.old.log.events part }
    requires form { (k : Known) → known_after state.old.log.events part.array ≡ Some k
        → form.now ≡ meta.with_shape (form_of k.info.home) k.shape }
    ensures under { IfOk result (λ u. (opening : Opening) (k : Known)
        → Agrees opening (K.seen state.old.store) state.old.log
        → known_after state.old.log.events part.entry.array ≡ Some k
        → IsUnderAt opening state.old.log.events k part.entry form.now u) }
    ensures events { state.new.log.events ≡ state.old.log.events }
    ensures store { state.new.store ≡ state.old.store }
    ensures kept { KeepsAgreement (K.seen state.old.store) state.old.log (K.seen state.new.store) state.new.log }
{
    if form.is_local() {
        return Ok(Under::Unknown);
    }
    if is_gone(form.chunk_shape(), form.shape(), part.chunk) {
        return Ok(Under::Unknown);
    }
    if covers(form.shape(), form.chunk_shape(), part.chunk, part.staged) {
        return Ok(Under::Covered);
    }
    match state.kept(part.array, part.chunk)? {
        Some(snapshot) => Ok(Under::Kept { snapshot }),
        None => Ok(Under::Unknown),
    }
}
