// What a read keeps under repeatable read.
ghost use Rattle.std.specs.Prelude.{◌≡◌, ◌<◌, ◌+◌, ◌^◌, ◌∷◌, ◌++◌, [], ℕ, List, Some, length, if◌then◌else◌, IfOk, OnOk, OnErr};
ghost use Rattle.std.specs.List.{AllByRecursion};
ghost use Rattle.std.specs.Str.{bytes_eq};
ghost use Rattle.history.specs.declared.event.Op.TheVariants as op;
ghost use Rattle.stack_driver.specs.Conditions.{IsView};
ghost use Rattle.chunk_fetches.specs.Found.{found};
ghost use Rattle.transactions.specs.Keeping.{AreNewTo, IsUnkept, IsUnspoilt, placed, with_read};
ghost use Rattle.chunk_fetches.specs.declared.kept.Kept.{Kept as KeptOf};

use crate::txn::Txn;
use cells::Words;
use chunk_fetches::Kept;
use history::Op;
use stack_driver::{View, copy};
use std::alloc::{AllocError, Global};
use std::collections::BTreeMap;

impl Txn {
    /// Keeps a read and what it fetched, where the transaction reads repeatably. After want of memory nothing new is kept.
    pub(crate) fn keep_read(
        &mut self,
        alloc: Global,
        v: &View,
        words: &[u64],
        fetched: Vec<Kept>,
    ) -> Result<(), AllocError>
        requires view { IsView v.now }
        requires new { AreNewTo self.old.kept fetched.items }
        ensures ok { OnOk result (self.new ≡ with_read self.old v.now words.now fetched.items) }
        ensures err { OnErr result (self.new ≡ self.old) }
    {
        if !self.mode.repeatable_read {
            return Ok(());
        }
        self.keep(alloc, v, words, fetched)
    }

    fn keep(
        &mut self,
        alloc: Global,
        v: &View,
        words: &[u64],
        mut fetched: Vec<Kept>,
    ) -> Result<(), AllocError>
        requires view { IsView v.now }
        requires new { AreNewTo self.old.kept fetched.items }
        ensures ok { OnOk result (self.new
            ≡ record self.old {
              ops = self.old.ops ++ op.Read v.now words.now ∷ [];
              kept = self.old.kept
                  ++ fetched.items;
            }) }
        ensures err { OnErr result (self.new ≡ self.old) }
    {
        let count = self.kept.len();
        prepare(alloc, &mut self.places, &fetched, count)?;
        self.kept.append(&mut fetched)?;
        match push_read(alloc, &mut self.ops, v, words) {
            Ok(()) => Ok(()),
            Err(_) => {
                self.kept.truncate(count);
                Err(AllocError)
            }
        }
    }
}

// Gives the ids of chunks the places from one on. Where that ends early, what is told counts as before.
fn prepare(
    alloc: Global,
    places: &mut BTreeMap<Vec<u64>, u64>,
    fetched: &[Kept],
    from: usize,
) -> Result<(), AllocError>
    requires { from < 2 ^ 63 }
    ensures ok { OnOk result ((id : List ℕ) → found places.new.entries id
        ≡ placed from fetched.now id (found places.old.entries id)) }
    ensures unspoilt { (kept : List KeptOf) → length kept ≡ from → AllByRecursion (IsUnkept kept) fetched.now
        → (id : List ℕ) → IsUnspoilt kept id (found places.old.entries id) (found places.new.entries id) }
{
    for (k, chunk) in fetched.iter().enumerate() {
        insert(alloc, places, chunk.id.items(), (from + k) as u64)?;
    }
    Ok(())
}

fn insert(
    alloc: Global,
    places: &mut BTreeMap<Vec<u64>, u64>,
    id: &[u64],
    place: u64,
) -> Result<(), AllocError>
    ensures ok { OnOk result ((other : List ℕ)
        → found places.new.entries other
        ≡ (if bytes_eq id.now other then Some place else found places.old.entries other)) }
    ensures err { OnErr result (places.new.entries ≡ places.old.entries) }
{
    let id = Vec::from_slice(alloc, id)?;
    match places.insert(id, place) {
        Ok(_) => Ok(()),
        Err(_) => Err(AllocError),
    }
}

fn push_read(alloc: Global, ops: &mut Vec<Op>, v: &View, words: &[u64]) -> Result<(), AllocError>
    requires { IsView v.now }
    ensures ok { OnOk result (ops.new.items ≡ ops.old.items ++ op.Read v.now words.now ∷ []) }
    ensures err { OnErr result (ops.new.items ≡ ops.old.items) }
{
    let op = read_of(alloc, v, words)?;
    ops.reserve(1)?;
    ops.push_reserved(op);
    Ok(())
}

// A read that gave words, copied.
fn read_of(alloc: Global, v: &View, words: &[u64]) -> Result<Op, AllocError>
    requires { IsView v.now }
    ensures { IfOk result (λ o. o ≡ op.Read v.now words.now) }
{
    let words = Words::wrap(Vec::from_slice(alloc, words)?);
    let view = copy(alloc, v)?;
    Ok(Op::Read { view, words })
}
