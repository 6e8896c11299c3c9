// The top call.
ghost use Rattle.std.specs.Prelude.{◌≡◌, ◌≢◌, ◌≤◌, ◌<◌, ◌^◌, ◌++◌, ◌⊎◌, ◌↔◌, ℕ, List, [], All, length, true, false, None, Some};
ghost use Rattle.kv_face.specs.Streams.{WhereTold, Rises, IsPartOf};
ghost use Rattle.kv_mounts.specs.Parts.{AreMounts};
ghost use Rattle.made_scripts.specs.Scripts.{made};
ghost use Rattle.made_scripts.specs.Summary.{summary_text};
ghost use Rattle.output_laws.specs.Typed.{AreTyped};
ghost use Rattle.session_workers.specs.MountRuns.{IsEmptyMount};
ghost use Rattle.run_words.specs.Options.{Text, texts_of};
ghost use Rattle.run_words.specs.Words.{IsSettings};
ghost use Rattle.run_words.specs.declared.settings.Settings.{Settings};
ghost use Rattle.script_runner.specs.Asked.{AskFor, AskToMake, AreRefused, HasAsked, IsUnread, IsUnreadFile};
ghost use Rattle.script_runner.specs.Promises.{HasRun, HasRunFiles, HasRunGiven, HasRunTexts, IsSerialOutcome, IsYesOutcome, IsUnstarted, HasAnswers, IsPut, status_of, text_by, text_of};
ghost use Rattle.script_streams.specs.Reading.{texts_in};
ghost use Rattle.script_streams.specs.Standing.{holds_memory};
ghost use Rattle.script_streams.specs.Writing.{text_of_logs};

use crate::outcome::{Outcome, unstarted};
use crate::writing::{Report, status_of};
use cells::List;
use kv_face::KvStore;
use made_scripts::make_scripts;
use output_laws::look_at_logs;
use run_words::{Input, Settings, read_words};
use script_streams::{Reader, Unread, Writer, read_scripts};
use session_workers::{Finished, Gate, Mount, run_over};
use std::alloc::Global;
use std::mem;
use std::sync::Wait;
use std::thread::Threads;

/// Runs the scripts that the words name, each in a session of its own, over the mounts, and writes the answers of all sessions to the sink,
/// in the order of the files.
///
/// The words are options and files: `--workers N` (1 to 64) and `--cache CELLS` (up to 134217728), then 1 to 1,024 files. A script has at
/// most 2^26 bytes, all together at most 2^28. Where one can't be read, no session starts. Over one empty store that makes all changes of a commit
/// together, a transaction that is open at a script's end leaves nothing. Where sessions were started, each mount comes back finished, or its
/// place is listed; else it is as it was. Session i is dealt to worker i modulo their number, of which no clause speaks.
///
/// With `--make NUMBER` no file is named or read: nine scripts are made from the number, the last of them for a session behind the others, and
/// one line about the run is written in place of the answers.
pub fn run<S: Reader, O: Writer, K: KvStore + Send, R: Threads + Wait + Sync, G: Gate + Sync>(
    alloc: Global,
    rt: &R,
    words: &[String],
    scripts: &mut S,
    sink: &mut O,
    mounts: &mut Vec<Mount<K>>,
    gate: &G,
) -> Outcome
    requires mounts { AreMounts mounts.old.items }
    // Serial transactions: over one empty store that makes all changes of a commit together.
    ensures serial { result.logs ≢ [] → IsEmptyMount mounts.old.items
        → IsSerialOutcome (S.contents scripts.old) (texts_of words.now) mounts.old.items mounts.new.items result }
    // Over such a store, the text of the logs, which is what a run of files writes under status 0 and 1, is a transcript that a checker has to
    // answer yes.
    ensures fits { result.logs ≢ [] → IsEmptyMount mounts.old.items
        → IsYesOutcome (S.contents scripts.old) (texts_of words.now) mounts.old.items result }
    // Over any mounts, where sessions were started, whatever the status.
    ensures started { result.logs ≢ [] → HasRun (S.contents scripts.old)
        (texts_of words.now) mounts.old.items mounts.new.items result (sink.new ≡ sink.old) }
    // Where none was, no mount was touched and nothing was written.
    ensures unstarted { result.logs ≡ [] → IsUnstarted result × (mounts.new.items ≡ mounts.old.items)
        × (sink.new ≡ sink.old) }
    ensures known { result.status ≤ 5 }
    // The words are refused exactly where they ask for nothing; no script was opened then.
    ensures refused { result.status ≡ 2 ↔ AreRefused (texts_of words.now) }
    ensures unopened { result.status ≡ 2 → scripts.new ≡ scripts.old }
    // Nor is one where the words ask for scripts that are made.
    ensures made { (number : ℕ) → AskToMake (texts_of words.now) number → (scripts.new ≡ scripts.old)
        × (result.status ≢ 3) }
    // The files that the words name are asked for in their order, each once and none behind the first that isn't given; what was given is run,
    // and over one empty store the text of the logs is answered yes for it.
    ensures asked { (files : List Text) → AskFor (texts_of words.now) files
        → HasAsked S.gives scripts.old files result (λ texts.
        HasRunGiven texts mounts.old.items mounts.new.items result (sink.new ≡ sink.old)) scripts.new }
    // Status 3 comes only where the scripts failed or, as far as they are told, the script passes a limit.
    ensures unread { result.status ≡ 3 → IsUnread (S.contents scripts.old) (texts_of words.now) (S.faults scripts.old)
        (S.faults scripts.new) result.script }
    ensures place { result.status ≢ 3 → result.script ≡ None }
    ensures none { (result.status ≡ 2) ⊎ (result.status ≡ 3) → result.logs ≡ [] }
    ensures some { (result.status ≢ 2) → (result.status ≢ 3) → (result.status ≢ 5) → result.logs ≢ [] }
    ensures contents { S.contents scripts.new ≡ S.contents scripts.old }
    ensures reading { S.faults scripts.old ≤ S.faults scripts.new }
    // The text of the run is given to the sink in pieces, in order, none behind the first that wasn't taken; the status tells how far.
    ensures put { (settings : Settings) → IsSettings (texts_of words.now) settings → result.logs ≢ []
        → IsPut O.takes sink.old (text_by settings.input result) result.status sink.new }
    // What was written is this text, or a front part of it where the sink failed or memory was wanting.
    ensures written { (settings : Settings) → IsSettings (texts_of words.now) settings → HasAnswers result.status
        → WhereTold (O.content sink.old) (λ before.
        O.content sink.new ≡ Some (before ++ text_by settings.input result)) }
    ensures part { (settings : Settings) → IsSettings (texts_of words.now) settings
        → WhereTold (O.content sink.old) (λ before.
        IsPartOf (O.content sink.new) before (text_by settings.input result)) }
    ensures status { HasAnswers result.status → (result.status ≡ status_of result)
        × (holds_memory result.logs ≡ false) }
    ensures unwritten { Rises (O.faults sink.old) (O.faults sink.new) (result.status ≡ 4) }
{
    match read_words(words) {
        Ok(
            Settings {
                workers,
                cache,
                input: Input::Files { first },
            },
        ) => read_and_run(
            alloc,
            rt,
            &words[first..],
            workers,
            cache,
            scripts,
            sink,
            mounts,
            gate,
        ),
        Ok(
            Settings {
                workers,
                cache,
                input: Input::Made { number },
            },
        ) => make_and_run(alloc, rt, number, workers, cache, sink, mounts, gate),
        Err(_) => unstarted(alloc, 2, None),
    }
}

// Reads the scripts of the files and runs them.
fn read_and_run<S: Reader, O: Writer, K: KvStore + Send, R: Threads + Wait + Sync, G: Gate + Sync>(
    alloc: Global,
    rt: &R,
    files: &[String],
    workers: u32,
    cache: u64,
    scripts: &mut S,
    sink: &mut O,
    mounts: &mut Vec<Mount<K>>,
    gate: &G,
) -> Outcome
    requires mounts { AreMounts mounts.old.items }
    requires files { (0 < length files.now) × (length files.now ≤ 1024) }
    requires workers { 0 < workers }
    requires cache { cache ≤ 2 ^ 27 }
    ensures started { result.logs ≢ [] → HasRunFiles (S.contents scripts.old)
        (texts_of files.now) mounts.old.items mounts.new.items result (sink.new ≡ sink.old) }
    ensures asked { HasAsked S.gives scripts.old (texts_of files.now) result (λ texts.
        HasRunTexts texts mounts.old.items mounts.new.items result (sink.new ≡ sink.old)) scripts.new }
    ensures unstarted { result.logs ≡ [] → IsUnstarted result × (mounts.new.items ≡ mounts.old.items)
        × (sink.new ≡ sink.old) }
    ensures known { (result.status ≤ 5) × (result.status ≢ 2) }
    ensures unread { result.status ≡ 3 → IsUnreadFile (S.contents scripts.old) (texts_of files.now)
        (S.faults scripts.old) (S.faults scripts.new) result.script }
    ensures place { result.status ≢ 3 → result.script ≡ None }
    ensures none { result.status ≡ 3 → result.logs ≡ [] }
    ensures some { (result.status ≢ 3) → (result.status ≢ 5) → result.logs ≢ [] }
    ensures contents { S.contents scripts.new ≡ S.contents scripts.old }
    ensures reading { S.faults scripts.old ≤ S.faults scripts.new }
    ensures put { result.logs ≢ [] → IsPut O.takes sink.old (text_of_logs result.logs) result.status sink.new }
    ensures written { HasAnswers result.status
        → WhereTold (O.content sink.old) (λ before. O.content sink.new ≡ Some (before ++ text_of_logs result.logs)) }
    ensures part { WhereTold (O.content sink.old) (λ before.
        IsPartOf (O.content sink.new) before (text_of_logs result.logs)) }
    ensures status { HasAnswers result.status → (result.status ≡ status_of result)
        × (holds_memory result.logs ≡ false) }
    ensures unwritten { Rises (O.faults sink.old) (O.faults sink.new) (result.status ≡ 4) }
{
    match read_scripts(alloc, scripts, files) {
        Ok(texts) => run_texts(
            alloc,
            rt,
            texts.as_slice(),
            workers,
            cache,
            Report::Answers,
            sink,
            mounts,
            gate,
        ),
        Err(Unread::Failed { place }) => unstarted(alloc, 3, Some(place)),
        Err(Unread::TooLong { place }) => unstarted(alloc, 3, Some(place)),
        Err(Unread::Memory) => unstarted(alloc, 5, None),
    }
}

// Makes the scripts and runs them.
fn make_and_run<O: Writer, K: KvStore + Send, R: Threads + Wait + Sync, G: Gate + Sync>(
    alloc: Global,
    rt: &R,
    number: u32,
    workers: u32,
    cache: u64,
    sink: &mut O,
    mounts: &mut Vec<Mount<K>>,
    gate: &G,
) -> Outcome
    requires mounts { AreMounts mounts.old.items }
    requires workers { 0 < workers }
    requires cache { cache ≤ 2 ^ 27 }
    ensures started { result.logs ≢ [] → HasRunTexts (made number) mounts.old.items mounts.new.items result (sink.new
        ≡ sink.old) }
    ensures unstarted { result.logs ≡ [] → IsUnstarted result × (mounts.new.items ≡ mounts.old.items)
        × (sink.new ≡ sink.old) }
    ensures known { (result.status ≤ 5) × (result.status ≢ 2) × (result.status ≢ 3) }
    ensures place { result.script ≡ None }
    ensures some { result.status ≢ 5 → result.logs ≢ [] }
    ensures put { result.logs ≢ [] → IsPut O.takes sink.old
        (summary_text result.logs result.history) result.status sink.new }
    ensures written { HasAnswers result.status
        → WhereTold (O.content sink.old) (λ before.
        O.content sink.new ≡ Some (before ++ summary_text result.logs result.history)) }
    ensures part { WhereTold (O.content sink.old) (λ before.
        IsPartOf (O.content sink.new) before (summary_text result.logs result.history)) }
    ensures status { HasAnswers result.status → (result.status ≡ status_of result)
        × (holds_memory result.logs ≡ false) }
    ensures unwritten { Rises (O.faults sink.old) (O.faults sink.new) (result.status ≡ 4) }
{
    match make_scripts(alloc, number) {
        Ok(scripts) => run_texts(
            alloc,
            rt,
            scripts.as_slice(),
            workers,
            cache,
            Report::Summary,
            sink,
            mounts,
            gate,
        ),
        Err(_) => unstarted(alloc, 5, None),
    }
}

// Runs scripts, and writes what is to be told of the run. Those that were made run so that the last session is behind the others.
fn run_texts<O: Writer, K: KvStore + Send, R: Threads + Wait + Sync, G: Gate + Sync>(
    alloc: Global,
    rt: &R,
    texts: &[Vec<u8>],
    workers: u32,
    cache: u64,
    report: Report,
    sink: &mut O,
    mounts: &mut Vec<Mount<K>>,
    gate: &G,
) -> Outcome
    requires mounts { AreMounts mounts.old.items }
    requires texts { (0 < length texts.now) × (length texts.now ≤ 1024) }
    requires short { All (λ s. length s.items < 2 ^ 62) texts.now }
    requires workers { 0 < workers }
    requires cache { cache ≤ 2 ^ 27 }
    ensures started { result.logs ≢ [] → HasRunTexts (texts_in texts.now) mounts.old.items mounts.new.items result
        (sink.new ≡ sink.old) }
    ensures unstarted { result.logs ≡ [] → IsUnstarted result × (mounts.new.items ≡ mounts.old.items)
        × (sink.new ≡ sink.old) }
    ensures known { (result.status ≤ 5) × (result.status ≢ 2) × (result.status ≢ 3) }
    ensures place { result.script ≡ None }
    ensures some { result.status ≢ 5 → result.logs ≢ [] }
    ensures put { result.logs ≢ [] → IsPut O.takes sink.old
        (text_of report result.logs result.history) result.status sink.new }
    ensures written { HasAnswers result.status
        → WhereTold (O.content sink.old) (λ before.
        O.content sink.new ≡ Some (before ++ text_of report result.logs result.history)) }
    ensures part { WhereTold (O.content sink.old) (λ before.
        IsPartOf (O.content sink.new) before (text_of report result.logs result.history)) }
    ensures status { HasAnswers result.status → (result.status ≡ status_of result)
        × (holds_memory result.logs ≡ false) }
    ensures unwritten { Rises (O.faults sink.old) (O.faults sink.new) (result.status ≡ 4) }
{
    let list = mem::replace(mounts, Vec::new(alloc));
    match run_over(alloc, rt, list, texts, workers, cache, behind(report), gate) {
        Ok(finished) => told(alloc, rt, workers, sink, report, mounts, finished),
        Err(back) => {
            *mounts = back;
            unstarted(alloc, 5, None)
        }
    }
}

// How many sessions run behind the others.
fn behind(report: Report) -> usize {
    match report {
        Report::Answers => 0,
        Report::Summary => 1,
    }
}

// Puts the mounts back and writes what is to be told.
fn told<O: Writer, K: KvStore, R: Threads + Sync>(
    alloc: Global,
    rt: &R,
    workers: u32,
    sink: &mut O,
    report: Report,
    mounts: &mut Vec<Mount<K>>,
    finished: Finished<K>,
) -> Outcome
    requires workers { 0 < workers }
    ensures mounts { mounts.new.items ≡ finished.mounts.items }
    ensures history { result.history ≡ finished.history.items }
    ensures logs { result.logs ≡ finished.logs.items }
    ensures unfinished { result.unfinished ≡ finished.unfinished.items }
    ensures typed { AreTyped result.logs }
    ensures known { (result.status ≤ 5) × (result.status ≢ 2) × (result.status ≢ 3) }
    ensures place { result.script ≡ None }
    ensures full { result.status ≢ 5 → finished.whole ≡ true }
    ensures silent { finished.whole ≡ false → sink.new ≡ sink.old }
    ensures put { IsPut O.takes sink.old (text_of report result.logs result.history) result.status sink.new }
    ensures written { HasAnswers result.status
        → WhereTold (O.content sink.old) (λ before.
        O.content sink.new ≡ Some (before ++ text_of report result.logs result.history)) }
    ensures part { WhereTold (O.content sink.old) (λ before.
        IsPartOf (O.content sink.new) before (text_of report result.logs result.history)) }
    ensures status { HasAnswers result.status → (result.status ≡ status_of result)
        × (holds_memory result.logs ≡ false) }
    ensures unwritten { Rises (O.faults sink.old) (O.faults sink.new) (result.status ≡ 4) }
{
    let Finished {
        mounts: back,
        history,
        logs,
        whole,
        unfinished,
    } = finished;
    *mounts = back;
    look_at_logs(logs.as_slice());
    let status = status_of(
        alloc,
        rt,
        workers,
        sink,
        report,
        logs.as_slice(),
        history.as_slice(),
        whole,
        unfinished.as_slice(),
    );
    Outcome {
        status,
        script: None,
        history: List::wrap(history),
        logs: List::wrap(logs),
        unfinished: List::wrap(unfinished),
    }
}
