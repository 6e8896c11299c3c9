// A run by the words of the command line.
ghost use Rattle.std.specs.Prelude.{◌≡◌, ◌≢◌, ◌↔◌, [], Option, drop, map, string_bytes, false};
ghost use Rattle.kv_face.specs.Store.{Contents};
ghost use Rattle.kv_mounts.specs.Parts.{AreMounts};
ghost use Rattle.script_runner.specs.Parts.{parts_of};
ghost use Rattle.script_runner.specs.Words.{mount_words, names_folder};
ghost use Rattle.script_runner.specs.Asked.{AreRefused};
ghost use Rattle.script_runner.specs.Promises.{HasRun, IsSerialOutcome, IsYesOutcome};

use crate::said::{say, say_unfinished};
use script_runner::{FileScripts, Mount, OpenGate, Outcome, StdoutSink, Store, mounts_by, run};
use std::sync::Wait;
use std::thread::Threads;

/// Runs the scripts that the words name, over `memory`, and over the files of a folder where the words begin with `--root`, and says what
/// went wrong. Tells the status.
pub(crate) fn run_words<R: Threads + Wait + Sync>(
    host: HostRuntime,
    rt: &R,
    words: &[String],
) -> u8 {
    match mounts_by(host, words) {
        Ok((mounts, first)) => run_mounts(host, rt, words, first, mounts),
        Err(_) => say(&host, 5, None),
    }
}

fn run_mounts<R: Threads + Wait + Sync>(
    host: HostRuntime,
    rt: &R,
    words: &[String],
    first: usize,
    mut mounts: Vec<Mount<Store<HostRuntime>>>,
) -> u8
    requires are { AreMounts mounts.items }
    requires parts { mounts.items ≡ parts_of (names_folder (map string_bytes words.now)) }
    requires first { first ≡ mount_words (map string_bytes words.now) }
{
    let outcome = ran(host, rt, words, first, &mut mounts);
    say_unfinished(&host, mounts.as_slice(), outcome.unfinished.items());
    say(&host, outcome.status, outcome.script)
}

// Runs the words behind the first ones, which are about the mounts, over the mounts that they ask for. Without a folder its transactions are
// serial.
fn ran<R: Threads + Wait + Sync>(
    host: HostRuntime,
    rt: &R,
    words: &[String],
    first: usize,
    mounts: &mut Vec<Mount<Store<HostRuntime>>>,
) -> Outcome
    requires are { AreMounts mounts.old.items }
    requires parts { mounts.old.items ≡ parts_of (names_folder (map string_bytes words.now)) }
    requires first { first ≡ mount_words (map string_bytes words.now) }
    ensures serial { names_folder (map string_bytes words.now) ≡ false → result.logs ≢ []
        → (contents : Option Contents) × IsSerialOutcome contents (map string_bytes words.now)
        (parts_of false) mounts.new.items result }
    // What it prints then is what a check answers yes.
    ensures fits { names_folder (map string_bytes words.now) ≡ false → result.logs ≢ []
        → (contents : Option Contents) × IsYesOutcome contents (map string_bytes words.now) (parts_of false) result }
    // With a folder or without, the words behind those that are about the mounts are run over the mounts that those ask for.
    ensures refused { result.status ≡ 2
        ↔ AreRefused (drop (mount_words (map string_bytes words.now)) (map string_bytes words.now)) }
    ensures started { result.logs ≢ [] → (contents : Option Contents)
        × HasRun contents (drop (mount_words (map string_bytes words.now)) (map string_bytes words.now))
        (parts_of (names_folder (map string_bytes words.now))) mounts.new.items result (Unit {0}) }
{
    let mut scripts = FileScripts::new(host);
    let mut sink = StdoutSink::new(host);
    run(
        host.alloc(),
        rt,
        &words[first..],
        &mut scripts,
        &mut sink,
        mounts,
        &OpenGate,
    )
}
