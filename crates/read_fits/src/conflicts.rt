// Whether a commit may be answered by a conflict.
ghost use Rattle.std.specs.Prelude.{◌≡◌, ◌≢◌, ◌↔◌, ◌<◌, ◌+◌, ◌⊎◌, ℕ, List, Option, Some, Ok, IfOk, IsTrue, codes, drop, get_or, length, option_map, string_bytes};
ghost use Rattle.std.specs.List.{AllByRecursion};
ghost use Rattle.serde_json.specs.Data.{Data};
ghost use Rattle.serde_json.specs.Find.{get};
ghost use Rattle.serde_json.specs.View.{view as data_in};
ghost use Rattle.array_homes.specs.Names.{HasRank};
ghost use Rattle.history.specs.declared.event.Op.{Op as OpOf};
ghost use Rattle.history.specs.Acts.{commits};
ghost use Rattle.history.specs.Arrays.{Known};
ghost use Rattle.history.specs.Chunks.{Chunk, chunk_key};
ghost use Rattle.history.specs.Commit.{Transaction};
ghost use Rattle.history.specs.Generations.{IsTouched};
ghost use Rattle.history.specs.History.{History};
ghost use Rattle.version_store.specs.Ids.{IsChunkIn};
ghost use Rattle.version_store.specs.Stores.{IsStoreOf};
ghost use Rattle.line_fits.specs.Answers.{answer_data};
ghost use Rattle.line_fits.specs.AnswerLines.{IsAnswerText};
ghost use Rattle.line_fits.specs.Fits.{IsAnsweredBy};
ghost use Rattle.line_fits.specs.Fitting.{IsConflictTold};
ghost use Rattle.line_fits.specs.Sweeps.{IsOpIn};
ghost use Rattle.line_fits.specs.Text.{answer_text};
ghost use Rattle.line_fits.specs.Windows.{Window};
ghost use Rattle.line_fits.specs.declared.Body.TheVariants as printed;
ghost use Rattle.read_fits.specs.Conflicts.{AreChunks, AreTablesOf, AreTouches, IsArrayOf, IsChunkId, IsCommitAnswer, IsConflictAnswer, IsMetAt, IsMetIn, IsOthers, IsToldAs, TellsConflict, key_in, number_in};
ghost use Rattle.read_fits.specs.Owned.{AreOwn, Id as IdOf};
ghost use Rattle.read_fits.specs.declared.conflicts.Conflict.{Conflict as ConflictOf};

use crate::fetches::{array_in, info_of, number_at};
use crate::own::{Ids, Own};
use array_homes::chunk_key;
use cells::Name;
use history::{Event, Mode};
use line_fits::{Answer, Body, is_told};
use serde_json::Value;
use stated_arrays::Openings;
use std::alloc::{AllocError, Global};
use version_store::VersionStore;

/// A conflict that an answer tells of: the key of a chunk, the number of an event that touched it when it was read, or 0, and that of one that
/// touched it since.
#[derive(Debug, Drop)]
pub struct Conflict {
    pub key: Name,
    pub read: u64,
    pub touch: u64,
}

/// Whose commit is answered, and how its transaction was begun.
#[derive(Clone, Copy, Debug)]
pub struct Committer {
    pub owner: u32,
    pub mode: Mode,
}

impl Conflict {
    /// The conflict that the answer to a line tells of, if it tells of one.
    ///
    /// # Errors
    /// `AllocError` where memory is wanting.
    pub fn told(
        alloc: Global,
        line: u64,
        text: &[u8],
        answer: &Value,
    ) -> Result<Option<Conflict>, AllocError>
        ensures { IfOk result (λ told. (number : ℕ) → IsAnswerText number text.now (data_in answer.now)
            → TellsConflict line text.now (data_in answer.now) told) }
    {
        match answer.get("conflict") {
            Some(found) => told_by(alloc, line, text, found),
            None => Ok(None),
        }
    }

    /// Whether a commit may be answered so, by what its transaction has. The arrays and the store are those of a history. The time is that of
    /// the keys of the chunks that the transaction's Reads named first.
    ///
    /// # Errors
    /// `AllocError` where memory is wanting.
    pub fn fits(
        &self,
        alloc: Global,
        own: &Own,
        store: &VersionStore,
        openings: &Openings,
        by: Committer,
    ) -> Result<bool, AllocError>
        requires { (history : History) × (upto : ℕ) × (ops : List OpOf) × AreTablesOf history openings.now store.now
            × AreOwn history upto ops own.now.staging own.now.reads.set.keys × AllByRecursion (IsOpIn history) ops }
        ensures { IfOk result (λ is. (history : History) (upto : ℕ) (t : Transaction)
            → AreTablesOf history openings.now store.now
            → AreOwn history upto t.ops own.now.staging own.now.reads.set.keys
            → AllByRecursion (IsOpIn history) t.ops → t.mode ≡ by.mode
            → IsTrue is ↔ IsConflictTold history by.owner t self.now.key self.now.read self.now.touch) }
    {
        if !self.may_be_told(by.mode) {
            return Ok(false);
        }
        if !is_others(openings.events.items(), by.owner, self.touch) {
            return Ok(false);
        }
        self.is_of_any(alloc, &own.reads, store, openings)
    }

    // Whether the transaction was begun under repeatable read, and the chunk touched behind the read.
    fn may_be_told(&self, mode: Mode) -> bool
        ensures { IsTrue result ↔ (IsTrue mode.repeatable_read × (self.now.read < self.now.touch)) }
    {
        mode.repeatable_read && self.read < self.touch
    }

    // Whether one of the chunks has the key, and was touched so.
    fn is_of_any(
        &self,
        alloc: Global,
        ids: &Ids,
        store: &VersionStore,
        openings: &Openings,
    ) -> Result<bool, AllocError>
        requires { (history : History) × AreTablesOf history openings.now store.now
            × AreChunks history ids.now.set.keys }
        ensures { IfOk result (λ is. (history : History) → AreTablesOf history openings.now store.now
            → AreChunks history ids.now.set.keys
            → IsTrue is ↔ IsMetIn history self.now.key self.now.read self.now.touch ids.now.set.keys) }
    {
        for i in 0..ids.count() {
            let found = self.is_of(alloc, ids.id(i), store, openings)?;
            if found {
                return Ok(true);
            }
        }
        Ok(false)
    }

    // Whether the chunk of an id has the key, and was touched so.
    fn is_of(
        &self,
        alloc: Global,
        id: &[u64],
        store: &VersionStore,
        openings: &Openings,
    ) -> Result<bool, AllocError>
        requires { (history : History) × AreTablesOf history openings.now store.now × IsChunkId history id.now }
        ensures { IfOk result (λ is. (history : History) → AreTablesOf history openings.now store.now
            → IsChunkId history id.now
            → IsTrue is ↔ IsMetAt history self.now.key self.now.read self.now.touch id.now) }
    {
        if id.is_empty() {
            return Ok(false);
        }
        if !self.was_touched(id, store) {
            return Ok(false);
        }
        self.has_key(alloc, id, openings)
    }

    // Whether the chunk of an id was touched so.
    fn was_touched(&self, id: &[u64], store: &VersionStore) -> bool
        ensures { (history : History) (k : Known) (c : Chunk) → IsStoreOf history store.now
            → IsChunkIn history k c id.now
            → IsTrue result ↔ AreTouches history c self.now.read self.now.touch }
    {
        if !is_read(store, id, self.read) {
            return false;
        }
        store.is_touched(id, self.touch)
    }

    // Whether the chunk of an id has the key.
    fn has_key(&self, alloc: Global, id: &[u64], openings: &Openings) -> Result<bool, AllocError>
        requires some { 0 < length id.now }
        requires array { (k : Known) × IsArrayOf openings.now (get_or id.now 0 0) k
            × HasRank k.info.home (drop 1 id.now) }
        ensures { IfOk result (λ is. (k : Known) → IsArrayOf openings.now (get_or id.now 0 0) k
            → IsTrue is ↔ (chunk_key k (drop 1 id.now) ≡ self.now.key)) }
    {
        let key = key_at(alloc, openings, array_in(id), index_in(id))?;
        Ok(is_same(key.as_str(), self.key.items()))
    }
}

impl Ids {
    // How many there are.
    fn count(&self) -> usize
        ensures { result ≡ length self.now.set.keys }
    {
        self.set.as_slice().len()
    }

    // One of them.
    fn id(&self, at: usize) -> &[u64]
        requires { at < length self.now.set.keys }
        ensures { (d : IdOf) → result.now ≡ (get_or self.now.set.keys at d).items }
    {
        self.set.as_slice()[at].as_slice()
    }
}

/// A commit is answered by one event that it did, by a conflict, or by a store call that failed; and the conflict is the one that
/// `Conflict::told` gives.
pub fn commits_are_answered()
    ensures answers { (history : History) (owner : ℕ) (w : Window) (t : Option Transaction) (line : ℕ) (u : Transaction)
        (text : List ℕ) (d : Data) → IsAnsweredBy history owner w t line (Ok (commits u)) text d
        ↔ IsCommitAnswer history owner u line text d }
    ensures conflicts { (history : History) (owner : ℕ) (u : Transaction) (line : ℕ) (text : List ℕ) (d : Data)
        (told : Option ConflictOf) → TellsConflict line text d told
        → IsConflictAnswer history owner u line text d ↔ IsToldAs history owner u told }
{}

// The conflict that an answer with this object tells of, if it tells of one.
fn told_by(
    alloc: Global,
    line: u64,
    text: &[u8],
    found: &Value,
) -> Result<Option<Conflict>, AllocError>
    ensures { IfOk result (λ told. (number : ℕ) (d : Data) → IsAnswerText number text.now d
        → get (codes "conflict") d ≡ Some (data_in found.now) → TellsConflict line text.now d told) }
{
    match key_in(found) {
        Some(key) => told_at(alloc, line, text, found, key),
        None => Ok(None),
    }
}

// The same of this key.
fn told_at(
    alloc: Global,
    line: u64,
    text: &[u8],
    found: &Value,
    key: &str,
) -> Result<Option<Conflict>, AllocError>
    ensures { IfOk result (λ told. (number : ℕ) (d : Data) → IsAnswerText number text.now d
        → get (codes "conflict") d ≡ Some (data_in found.now) → key_in (data_in found.now) ≡ Some key.now
        → TellsConflict line text.now d told) }
{
    match read_in(found) {
        Some(read) => told_behind(alloc, line, text, found, key, read),
        None => Ok(None),
    }
}

// The same of this number of a read.
fn told_behind(
    alloc: Global,
    line: u64,
    text: &[u8],
    found: &Value,
    key: &str,
    read: u64,
) -> Result<Option<Conflict>, AllocError>
    ensures { IfOk result (λ told. (number : ℕ) (d : Data) → IsAnswerText number text.now d
        → get (codes "conflict") d ≡ Some (data_in found.now) → key_in (data_in found.now) ≡ Some key.now
        → number_in (codes "read") (data_in found.now) ≡ Some read → TellsConflict line text.now d told) }
{
    match touch_in(found) {
        Some(touch) => told_with(alloc, line, text, key, read, touch),
        None => Ok(None),
    }
}

fn key_in(found: &Value) -> Option<&str>
    ensures { option_map (λ s. s.now) result ≡ key_in (data_in found.now) }
{
    let key = found.get("key")?;
    key.as_str()
}

fn read_in(found: &Value) -> Option<u64>
    ensures { result ≡ number_in (codes "read") (data_in found.now) }
{
    let read = found.get("read")?;
    read.as_u64()
}

fn touch_in(found: &Value) -> Option<u64>
    ensures { result ≡ number_in (codes "now") (data_in found.now) }
{
    let touch = found.get("now")?;
    touch.as_u64()
}

// The conflict of this key and these numbers, where the text is that of an answer that tells of it.
fn told_with(
    alloc: Global,
    line: u64,
    text: &[u8],
    key: &str,
    read: u64,
    touch: u64,
) -> Result<Option<Conflict>, AllocError>
    ensures { IfOk result (λ told. (number : ℕ) (d found : Data) → IsAnswerText number text.now d
        → get (codes "conflict") d ≡ Some found → key_in found ≡ Some key.now
        → number_in (codes "read") found ≡ Some read
        → number_in (codes "now") found ≡ Some touch → TellsConflict line text.now d told) }
{
    let same = is_text_of(alloc, line, text, key, read, touch)?;
    if !same {
        return Ok(None);
    }
    let key = name_of(alloc, key)?;
    Ok(Some(Conflict { key, read, touch }))
}

// Whether the text is that of an answer that tells of a conflict of this key and these numbers.
fn is_text_of(
    alloc: Global,
    line: u64,
    text: &[u8],
    key: &str,
    read: u64,
    touch: u64,
) -> Result<bool, AllocError>
    ensures { IfOk result (λ is. (number : ℕ) (d : Data) → IsAnswerText number text.now d → IsTrue is
        ↔ ((text.now ≡ answer_text (record { line = line; body = printed.Conflict key.now read touch }))
        × (d ≡ answer_data (record { line = line; body = printed.Conflict key.now read touch })))) }
{
    let body = conflict_body(alloc, key, read, touch)?;
    let answer = Answer { line, body };
    is_told(alloc, &answer, text)
}

fn conflict_body(alloc: Global, key: &str, read: u64, now: u64) -> Result<Body, AllocError>
    ensures { IfOk result (λ body. body ≡ printed.Conflict key.now read now) }
{
    let key = name_of(alloc, key)?;
    Ok(Body::Conflict { key, read, now })
}

fn name_of(alloc: Global, text: &str) -> Result<Name, AllocError>
    ensures { IfOk result (λ name. name ≡ text.now) }
{
    Ok(Name::wrap(String::from_str(alloc, text)?))
}

// Whether a number is 0, or that of an event that touched the chunk of an id.
fn is_read(store: &VersionStore, id: &[u64], number: u64) -> bool
    ensures { (history : History) (k : Known) (c : Chunk) → IsStoreOf history store.now
        → IsChunkIn history k c id.now → IsTrue result ↔ ((number ≡ 0) ⊎ IsTouched history c number) }
{
    if number == 0 {
        true
    } else {
        store.is_touched(id, number)
    }
}

// Whether the event of a number is there, and another session's.
fn is_others(events: &[Event], owner: u32, number: u64) -> bool
    ensures { IsTrue result ↔ IsOthers events.now owner number }
{
    if number == 0 {
        return false;
    }
    let count = events.len() as u64;
    if number > count {
        return false;
    }
    is_others_at(events, owner, number as usize - 1)
}

fn is_others_at(events: &[Event], owner: u32, at: usize) -> bool
    requires { at < length events.now }
    ensures { IsTrue result ↔ IsOthers events.now owner (at + 1) }
{
    has_other_owner(&events[at], owner)
}

fn has_other_owner(event: &Event, owner: u32) -> bool
    ensures { IsTrue result ↔ (event.now.owner ≢ owner) }
{
    event.owner != owner
}

// The index in an id, behind its array's number.
fn index_in(id: &[u64]) -> &[u64]
    requires { 0 < length id.now }
    ensures { result.now ≡ drop 1 id.now }
{
    &id[1..]
}

// The key of the chunk of this index of an array.
fn key_at(
    alloc: Global,
    openings: &Openings,
    array: u64,
    index: &[u64],
) -> Result<String, AllocError>
    requires { (k : Known) × IsArrayOf openings.now array k × HasRank k.info.home index.now }
    ensures { IfOk result (λ key. (k : Known) → IsArrayOf openings.now array k
        → string_bytes key ≡ chunk_key k index.now) }
{
    let info = info_of(openings, array);
    let opened = number_at(openings.opened.items(), array);
    chunk_key(alloc, &info.home, opened, index)
}

fn is_same(one: &str, other: &str) -> bool
    ensures { IsTrue result ↔ (one.now ≡ other.now) }
{
    one == other
}
