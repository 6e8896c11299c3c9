ghost use Rattle.std.specs.Prelude.{◌≡◌, []};

use cells::List;
use output_laws::{Answer, Event};
use std::alloc::Global;

/// How a run ended.
#[derive(Drop)]
pub struct Outcome {
    /// 0 where each line did what it asks for and each mount was finished, 1 where one wasn't; 2 where the words are refused, 3 where a
    /// script was not read, 4 where the answers were not written, 5 for want of memory.
    pub status: u8,
    /// The place of the script that was not read, 0 for the first.
    pub script: Option<u32>,
    /// What happened, the first event with the number 1.
    pub history: List<Event>,
    /// The answers of each session, in the order of the files; none where no session was started.
    pub logs: List<List<Answer>>,
    /// The places of the mounts that were not finished.
    pub unfinished: List<u32>,
}

/// No session was started.
pub(crate) fn unstarted(alloc: Global, status: u8, script: Option<u32>) -> Outcome
    ensures { result ≡ record { status = status; script = script; history = []; logs = []; unfinished = [] } }
{
    Outcome {
        status,
        script,
        history: List::wrap(Vec::new(alloc)),
        logs: List::wrap(Vec::new(alloc)),
        unfinished: List::wrap(Vec::new(alloc)),
    }
}
