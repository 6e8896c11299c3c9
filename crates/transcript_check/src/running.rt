// The check of files.
ghost use Rattle.std.specs.Prelude.{◌≡◌, ◌≢◌, ◌≤◌, ◌<◌, ◌⊎◌, ◌↔◌, ◌^◌, [], length};
ghost use Rattle.transcript_check.specs.CheckRuns.{HasAskedFiles, HasVerdict, IsCheckOf, IsCheckTold, IsCheckUntold, IsUnread, IsTold, IsUntold, status_unread};
ghost use Rattle.transcript_check.specs.CheckWords.{AreCheckWords};
ghost use Rattle.kv_face.specs.Streams.{Rises};
ghost use Rattle.script_streams.specs.Putting.{IsGoing, IsBroken};
ghost use Rattle.script_streams.specs.Reading.{names_in};
ghost use Rattle.transcript_check.specs.Verdicts.{verdict_of};
ghost use Rattle.transcript_fits.specs.Verdicts.{verdict_text, verdict_status};

use crate::checking::check;
use crate::files::{Files, read_files};
use crate::telling::{status_of, text_of};
use crate::verdict::Verdict;
use crate::words::are_check_words;
use script_streams::{Reader, Unread, Writer};
use std::alloc::Global;

/// Checks the transcript that the first word names against the scripts that the other words name, one of each session in order, and writes
/// the line of the verdict to the sink.
///
/// The status is 0 where the transcript fits, 1 where it doesn't or isn't checked, 2 where the words are no transcript and 1 to 1,024
/// scripts, 3 where a file wasn't read, 4 where the line wasn't written, and 5 where memory was wanting. A file has at most 2^26 bytes, and
/// all together have at most 2^28.
pub fn check_run<S: Reader, O: Writer>(
    alloc: Global,
    words: &[String],
    scripts: &mut S,
    sink: &mut O,
) -> u8
    ensures known { result ≤ 5 }
    ensures words { result ≡ 2 ↔ ¬ AreCheckWords (names_in words.now) }
    ensures unopened { result ≡ 2 → scripts.new ≡ scripts.old }
    ensures unread { result ≡ 3 → IsUnread (S.contents scripts.old) (names_in words.now) (S.faults scripts.old)
        (S.faults scripts.new) }
    ensures told { HasVerdict result → IsCheckTold (S.contents scripts.old) (names_in words.now) O.takes sink.old
        sink.new result }
    ensures untold { result ≡ 4 → IsCheckUntold (S.contents scripts.old) (names_in words.now) O.takes sink.old
        sink.new }
    // The transcript is asked for first, and the scripts behind it in their order, each once and none behind the first that isn't given; the
    // verdict is that on what was given.
    ensures asked { AreCheckWords (names_in words.now) → HasAskedFiles S.gives scripts.old (names_in words.now)
        (λ e. result ≡ status_unread e) (IsCheckOf O.takes sink.old sink.new result) scripts.new }
    ensures silent { (result ≡ 2) ⊎ (result ≡ 3) ⊎ (result ≡ 5) → sink.new ≡ sink.old }
    ensures unwritten { Rises (O.faults sink.old) (O.faults sink.new) (result ≡ 4) }
    ensures reading { S.faults scripts.old ≤ S.faults scripts.new }
    ensures contents { S.contents scripts.new ≡ S.contents scripts.old }
{
    if !are_check_words(words) {
        return 2;
    }
    match read_files(alloc, words, scripts) {
        Ok(files) => check_files(alloc, files, sink),
        Err(Unread::Failed { .. }) => 3,
        Err(Unread::TooLong { .. }) => 3,
        Err(Unread::Memory) => 5,
    }
}

// Checks files that were read.
fn check_files<O: Writer>(alloc: Global, files: Files, sink: &mut O) -> u8
    requires { length files.scripts < 2 ^ 32 }
    ensures known { (result ≤ 5) × (result ≢ 2) × (result ≢ 3) }
    ensures told { HasVerdict result → IsTold files.scripts files.transcript O.takes sink.old sink.new result }
    ensures untold { result ≡ 4 → IsUntold files.scripts files.transcript O.takes sink.old sink.new }
    ensures silent { result ≡ 5 → sink.new ≡ sink.old }
    ensures unwritten { Rises (O.faults sink.old) (O.faults sink.new) (result ≡ 4) }
{
    let Files {
        transcript,
        scripts,
    } = files;
    match check(alloc, scripts.items(), transcript.items()) {
        Ok(verdict) => tell(alloc, verdict, sink),
        Err(_) => 5,
    }
}

// Writes the line of a verdict.
fn tell<O: Writer>(alloc: Global, verdict: Verdict, sink: &mut O) -> u8
    ensures known { (result ≤ 5) × (result ≢ 2) × (result ≢ 3) }
    ensures told { HasVerdict result → (result ≡ verdict_status (verdict_of verdict))
        × IsGoing O.takes sink.old (verdict_text (verdict_of verdict)) [] sink.new }
    ensures untold { result ≡ 4 → IsBroken O.takes sink.old (verdict_text (verdict_of verdict)) sink.new }
    ensures silent { result ≡ 5 → sink.new ≡ sink.old }
    ensures unwritten { Rises (O.faults sink.old) (O.faults sink.new) (result ≡ 4) }
{
    match text_of(alloc, verdict) {
        Ok(text) => write(&text, status_of(verdict), sink),
        Err(_) => 5,
    }
}

// Writes a line, and tells this status where it was taken.
fn write<O: Writer>(text: &[u8], status: u8, sink: &mut O) -> u8
    requires { status ≤ 1 }
    ensures known { (result ≡ status) ⊎ (result ≡ 4) }
    ensures told { HasVerdict result → (result ≡ status) × IsGoing O.takes sink.old text.now [] sink.new }
    ensures untold { result ≡ 4 → IsBroken O.takes sink.old text.now sink.new }
    ensures unwritten { Rises (O.faults sink.old) (O.faults sink.new) (result ≡ 4) }
{
    match sink.put(text) {
        Ok(()) => status,
        Err(_) => 4,
    }
}
