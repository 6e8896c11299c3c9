// A check by the words of the command line.
use crate::said::say_checked;
use script_runner::{FileScripts, StdoutSink};
use transcript_check::check_run;

/// Checks the transcript that the first word names against the scripts that the other words name, and says what went wrong. Tells the status.
pub(crate) fn check_words(host: HostRuntime, words: &[String]) -> u8 {
    let mut scripts = FileScripts::new(host);
    let mut sink = StdoutSink::new(host);
    let status = check_run(host.alloc(), words, &mut scripts, &mut sink);
    say_checked(&host, status)
}
