// Chunks that a read fetches.
ghost use Rattle.std.specs.Prelude.{◌≡◌, ◌<◌, ◌≤◌, List, [], true, false, IfOk, IfErr, OnOk, drop, length, slice_index_or};
ghost use Rattle.std.specs.FinMap as finmap;
ghost use Rattle.std.specs.List.{AllByRecursion, list_any};
ghost use mathlib.Core.List.{IsPrefix};
ghost use Rattle.history.specs.History.{History};
ghost use Rattle.history.specs.Legal.{IsLegal};
ghost use Rattle.shared_state.specs.Outline.{outline};
ghost use Rattle.transaction_cells.specs.Sites.{id_of};
ghost use Rattle.transaction_cells.specs.declared.view_cells.Piece.{Piece as PieceOf};
ghost use Rattle.chunk_fetches.specs.Fetching.{IsFetchError, IsDecodeRefusal, as_read_error};
ghost use Rattle.chunk_fetches.specs.Fetched.{AreFetched, AreFetchedAt, kept_from};
ghost use Rattle.chunk_fetches.specs.Looking.{AreLookedAt, AreChunks, AreFresh};
ghost use Rattle.chunk_fetches.specs.Sources.{is_new, new_pieces};
ghost use Rattle.chunk_fetches.specs.Turns.{HasPassed};
ghost use Rattle.chunk_fetches.specs.Kept.{chunk_at};
ghost use Rattle.chunk_fetches.specs.declared.error.ReadError.TheVariants as read_error;
ghost use Rattle.chunk_fetches.specs.declared.looked.Fresh.{Fresh as FreshOf};
ghost use Rattle.chunk_fetches.specs.declared.source.Source.{Source as SourceOf};
ghost use Rattle.turn_book.specs.Passes.{IsIdle};

use crate::around::Around;
use crate::decoding::decode_all;
use crate::error::{LookError, ReadError};
use crate::gate::Gate;
use crate::kept::Kept;
use crate::looked::{Fresh, Looked};
use crate::source::{Source, is_new};
use crate::turns::{look_in_turn, settle_in_turn};
use cells::Sizes;
use kv_face::KvStore;
use shared_state::State;
use std::alloc::{AllocError, Global};
use std::sync::Wait;
use transaction_cells::Piece;
use turn_book::Pass;

/// Fetches the chunks that are to be fetched for a view's pieces. They are looked at in one turn, decoded outside of it, and handed to the
/// state in another, where the state didn't keep them all. No turn is taken where there are none.
///
/// # Errors
/// `StoreFailed`; `Damaged` for the first chunk whose bytes are none of its array, where the store told its contents; `Memory`.
pub fn fetch<K: KvStore, R: Wait, G: Gate>(
    around: &Around<K, R, G>,
    pass: &mut Pass<State<K>>,
    pieces: &[Piece],
    sources: &[Source],
) -> Result<Vec<Kept>, ReadError>
    requires pass { IsIdle around.now.book.now pass.old }
    requires count { length sources.now ≡ length pieces.now }
    requires chunks { (events : History) → IsPrefix pass.old.seen events → IsLegal finmap.empty (outline events)
        → AreChunks events (new_pieces sources.now pieces.now) }
    requires named { AllByRecursion (λ (p : PieceOf).
        p.id ≡ id_of (chunk_at p.id)) (new_pieces sources.now pieces.now) }
    ensures fetched { IfOk result (λ fetched.
        AreFetched around.now.book.now.fixed (length pass.old.seen) pass.new.seen
        (new_pieces sources.now pieces.now) fetched.items) }
    ensures ok { OnOk result (HasPassed around.now.book.now pass.old pass.new []) }
    ensures untaken { list_any is_new sources.now ≡ false → pass.new ≡ pass.old }
    ensures refused { IfErr result (IsFetchError around.now.book.now pass.old pass.new
        (new_pieces sources.now pieces.now)) }
{
    if !has_new(sources) {
        return Ok(Vec::new(around.alloc));
    }
    match look_in_turn(around.alloc, around.rt, around.book, pass, pieces, sources) {
        Ok((looks, mark)) => { decoded(around, pass, pieces, sources, looks, mark) }
        Err(e) => Err(unfetched(e)),
    }
}

fn has_new(sources: &[Source]) -> bool
    ensures { result ≡ list_any is_new sources.now }
{
    for source in sources {
        if is_new(*source) {
            return true;
        }
    }
    false
}

fn unfetched(e: LookError) -> ReadError
    ensures { result ≡ as_read_error e }
{
    match e {
        LookError::StoreFailed { event } => ReadError::StoreFailed { event },
        LookError::Memory => ReadError::Memory,
    }
}

// Decodes what was looked at, and hands it to the state.
fn decoded<K: KvStore, R: Wait, G: Gate>(
    around: &Around<K, R, G>,
    pass: &mut Pass<State<K>>,
    pieces: &[Piece],
    sources: &[Source],
    looks: Vec<Looked>,
    mark: u64,
) -> Result<Vec<Kept>, ReadError>
    requires pass { IsIdle around.now.book.now pass.old }
    requires count { length sources.now ≡ length pieces.now }
    requires chunks { (events : History) → IsPrefix pass.old.seen events → IsLegal finmap.empty (outline events)
        → AreChunks events (new_pieces sources.now pieces.now) }
    requires named { AllByRecursion (λ (p : PieceOf).
        p.id ≡ id_of (chunk_at p.id)) (new_pieces sources.now pieces.now) }
    requires looked { AreLookedAt around.now.book.now.fixed pass.old.seen (new_pieces sources.now pieces.now)
        looks.items }
    requires mark { mark ≡ length pass.old.seen }
    ensures fetched { IfOk result (λ fetched.
        AreFetchedAt around.now.book.now.fixed pass.new.seen mark (new_pieces sources.now pieces.now) fetched.items) }
    ensures ok { OnOk result (HasPassed around.now.book.now pass.old pass.new []) }
    ensures refused { IfErr result (IsDecodeRefusal around.now.book.now pass.old pass.new
        (new_pieces sources.now pieces.now)) }
{
    match decode_all(around.alloc, around.rt, around.gate, pass.number(), looks) {
        Ok(fresh) => settled(around, pass, pieces, sources, fresh, mark),
        Err(e) => Err(e),
    }
}

// Whether one of the chunks was decoded for this read.
fn has_decoded(fresh: &[Fresh]) -> bool
    ensures { result ≡ list_any (λ (f : FreshOf). f.is_new) fresh.now }
{
    for f in fresh {
        if f.is_new {
            return true;
        }
    }
    false
}

fn settled<K: KvStore, R: Wait, G: Gate>(
    around: &Around<K, R, G>,
    pass: &mut Pass<State<K>>,
    pieces: &[Piece],
    sources: &[Source],
    fresh: Vec<Fresh>,
    mark: u64,
) -> Result<Vec<Kept>, ReadError>
    requires pass { IsIdle around.now.book.now pass.old }
    requires count { length sources.now ≡ length pieces.now }
    requires chunks { (events : History) → IsPrefix pass.old.seen events → IsLegal finmap.empty (outline events)
        → AreChunks events (new_pieces sources.now pieces.now) }
    requires named { AllByRecursion (λ (p : PieceOf).
        p.id ≡ id_of (chunk_at p.id)) (new_pieces sources.now pieces.now) }
    requires fresh { AreFresh around.now.book.now.fixed pass.old.seen (new_pieces sources.now pieces.now) fresh.items }
    requires mark { mark ≡ length pass.old.seen }
    ensures fetched { IfOk result (λ fetched.
        AreFetchedAt around.now.book.now.fixed pass.new.seen mark (new_pieces sources.now pieces.now) fetched.items) }
    ensures passed { HasPassed around.now.book.now pass.old pass.new [] }
    ensures refused { IfErr result (λ e. e ≡ read_error.Memory) }
{
    if !has_decoded(&fresh) {
        return kept(around.alloc, pieces, sources, fresh, mark);
    }
    match settle_in_turn(around.rt, around.book, pass, pieces, sources, &fresh) {
        Ok(()) => kept(around.alloc, pieces, sources, fresh, mark),
        Err(_) => Err(ReadError::Memory),
    }
}

fn kept(
    alloc: Global,
    pieces: &[Piece],
    sources: &[Source],
    fresh: Vec<Fresh>,
    mark: u64,
) -> Result<Vec<Kept>, ReadError>
    requires count { length sources.now ≡ length pieces.now }
    ensures kept { IfOk result (λ fetched. fetched.items
        ≡ kept_from mark (new_pieces sources.now pieces.now) fresh.items) }
    ensures err { IfErr result (λ e. e ≡ read_error.Memory) }
{
    match keep_all(alloc, pieces, sources, fresh, mark) {
        Ok(fetched) => Ok(fetched),
        Err(_) => Err(ReadError::Memory),
    }
}

// What was fetched for the pieces that needed it, as it is kept.
fn keep_all(
    alloc: Global,
    pieces: &[Piece],
    sources: &[Source],
    fresh: Vec<Fresh>,
    mark: u64,
) -> Result<Vec<Kept>, AllocError>
    requires count { length sources.now ≡ length pieces.now }
    ensures { IfOk result (λ fetched. fetched.items ≡ kept_from mark (new_pieces sources.now pieces.now) fresh.items) }
{
    let mut fetched = Vec::new(alloc);
    let mut k = 0;
    for f in fresh {
        k = next_new(sources, k);
        if k < pieces.len() {
            fetched.push(keep(alloc, pieces[k].id.items(), f, mark)?)?;
            k += 1;
        }
    }
    Ok(fetched)
}

// The place of the next piece that is to be fetched, from one on; the count of pieces where there is none.
fn next_new(sources: &[Source], from: usize) -> usize
    requires { from ≤ length sources.now }
    ensures from { from ≤ result }
    ensures to { result ≤ length sources.now }
    ensures next { (pieces : List PieceOf) → length sources.now ≡ length pieces
        → new_pieces (drop result sources.now) (drop result pieces)
        ≡ new_pieces (drop from sources.now) (drop from pieces) }
    ensures new { (d : SourceOf) → result < length sources.now → is_new (slice_index_or sources.now result d) ≡ true }
{
    let mut k = from;
    while k < sources.len() {
        if is_new(sources[k]) {
            return k;
        }
        k += 1;
    }
    k
}

fn keep(alloc: Global, id: &[u64], f: Fresh, mark: u64) -> Result<Kept, AllocError>
    ensures { IfOk result (λ k.
        k ≡ record { id = id.now; key = f.key; snapshot = f.snapshot; bounds = f.bounds; mark = mark }) }
{
    let id = Sizes::wrap(Vec::from_slice(alloc, id)?);
    let Fresh {
        key,
        snapshot,
        bounds,
        ..
    } = f;
    Ok(Kept {
        id,
        key,
        snapshot,
        bounds,
        mark,
    })
}
