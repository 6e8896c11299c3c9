// The files of a check.
ghost use Rattle.std.specs.Prelude.{◌≡◌, ◌≤◌, ◌∷◌, ◌++◌, [], Err, take, length, sum_by, IfOk, IfErr};
ghost use Rattle.transcript_check.specs.CheckRuns.{AreFiles, AreFilesOf, HasAskedFiles, HasAskedFor, IsCauseBy, IsFilesAnswer, IsTooLongBy};
ghost use Rattle.kv_face.specs.Streams.{WhereTold};
ghost use Rattle.script_streams.specs.Reading.{AreScripts, AreShort, names_in, texts_in};

use cells::List;
use script_streams::{Reader, Unread, read_scripts};
use std::alloc::{AllocError, Global};

// The bytes that all files together may have.
const MOST_BYTES: usize = 1 << 28;

/// What the files of a check hold.
#[derive(Drop)]
pub(crate) struct Files {
    pub(crate) transcript: List<u8>,
    pub(crate) scripts: List<List<u8>>,
}

/// What the files hold that the words name, the transcript first. A file has at most 2^26 bytes, and all together have at most 2^28.
///
/// # Errors
/// `Failed` where a file isn't there or can't be read, `TooLong` where one passes a limit or all do, `Memory` at any time. Of the place
/// that an error tells nothing is said.
pub(crate) fn read_files<S: Reader>(
    alloc: Global,
    words: &[String],
    scripts: &mut S,
) -> Result<Files, Unread>
    requires least { 2 ≤ length words.now }
    requires most { length words.now ≤ 1025 }
    ensures read { IfOk result (λ files. AreFiles (S.contents scripts.old) (names_in words.now) files.transcript
        files.scripts) }
    ensures cause { IfErr result (IsCauseBy (S.contents scripts.old) (names_in words.now) (S.faults scripts.old)
        (S.faults scripts.new)) }
    // The transcript is asked for first, and the scripts behind it, none behind the first that isn't given.
    ensures asked { HasAskedFiles S.gives scripts.old (names_in words.now) (λ e. result ≡ Err e)
        (IsFilesAnswer result) scripts.new }
    ensures reading { S.faults scripts.old ≤ S.faults scripts.new }
    ensures contents { S.contents scripts.new ≡ S.contents scripts.old }
{
    let (first, rest) = words.split_at(1);
    match read_scripts(alloc, scripts, first) {
        Ok(transcript) => read_rest(alloc, first, rest, transcript, scripts),
        Err(e) => Err(e),
    }
}

// The same, where the first of them was read.
fn read_rest<S: Reader>(
    alloc: Global,
    first: &[String],
    rest: &[String],
    transcript: Vec<Vec<u8>>,
    scripts: &mut S,
) -> Result<Files, Unread>
    requires most { length rest.now ≤ 1024 }
    requires read { WhereTold (S.contents scripts.old) (λ told. AreScripts told (names_in first.now)
        (texts_in transcript.items)) }
    requires one { length first.now ≡ 1 }
    requires count { length transcript.items ≡ 1 }
    requires short { AreShort (texts_in transcript.items) }
    ensures read { IfOk result (λ files. AreFiles (S.contents scripts.old) (names_in (first.now ++ rest.now))
        files.transcript files.scripts) }
    ensures cause { IfErr result (IsCauseBy (S.contents scripts.old) (names_in (first.now ++ rest.now))
        (S.faults scripts.old) (S.faults scripts.new)) }
    ensures asked { HasAskedFor S.gives scripts.old (names_in rest.now) (λ e. result ≡ Err e)
        (λ others. IsFilesAnswer result (texts_in transcript.items ++ others)) scripts.new }
    ensures reading { S.faults scripts.old ≤ S.faults scripts.new }
    ensures contents { S.contents scripts.new ≡ S.contents scripts.old }
{
    match read_scripts(alloc, scripts, rest) {
        Ok(others) => files_of(alloc, transcript, others),
        Err(e) => Err(e),
    }
}

// Texts as files, where they are within the limit together.
fn files_of(alloc: Global, transcript: Vec<Vec<u8>>, others: Vec<Vec<u8>>) -> Result<Files, Unread>
    requires count { length transcript.items ≡ 1 }
    requires one { AreShort (texts_in transcript.items) }
    requires rest { AreShort (texts_in others.items) }
    ensures files { IfOk result (λ files. AreFilesOf (texts_in transcript.items) (texts_in others.items)
        files.transcript files.scripts) }
    ensures cause { IfErr result (IsTooLongBy (texts_in transcript.items ++ texts_in others.items)) }
{
    if bytes_in(&transcript) + bytes_in(&others) > MOST_BYTES {
        return Err(Unread::TooLong { place: 0 });
    }
    match lists_of(alloc, others) {
        Ok(scripts) => Ok(first_of(transcript, scripts)),
        Err(_) => Err(Unread::Memory),
    }
}

// One text and these scripts.
fn first_of(mut transcript: Vec<Vec<u8>>, scripts: Vec<List<u8>>) -> Files
    requires { length transcript.items ≡ 1 }
    ensures transcript { texts_in transcript.items ≡ result.transcript ∷ [] }
    ensures scripts { result.scripts ≡ scripts.items }
{
    match transcript.pop() {
        Some(text) => Files {
            transcript: List::wrap(text),
            scripts: List::wrap(scripts),
        },
        None => unreachable!(),
    }
}

// How many bytes texts have together.
fn bytes_in(texts: &[Vec<u8>]) -> usize
    requires { AreShort (texts_in texts.now) }
    ensures { result ≡ sum_by length (texts_in texts.now) }
{
    let mut count = 0;
    for i in 0..texts.len() {
        count += texts[i].len();
    }
    count
}

// Texts as lists.
fn lists_of(alloc: Global, texts: Vec<Vec<u8>>) -> Result<Vec<List<u8>>, AllocError>
    ensures { IfOk result (λ lists. lists.items ≡ texts_in texts.items) }
{
    let mut lists = Vec::with_capacity(alloc, texts.len())?;
    for text in texts {
        lists.push(List::wrap(text))?;
    }
    Ok(lists)
}
