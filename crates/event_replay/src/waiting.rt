ghost use Rattle.std.specs.Prelude.{◌≡◌, ◌<◌, length, get_or};
ghost use Rattle.event_replay.specs.declared.waiting.Waiting.{Waiting as WaitingOf};

use crate::demand::Demand;

/// What a read asks of a history, and the numbers of events between which it may have looked, both included.
#[derive(Debug, Drop)]
pub struct Waiting {
    pub from: u64,
    pub upto: u64,
    pub demand: Demand,
}

pub(crate) fn waiting_at(waiting: &[Waiting], at: usize) -> &Waiting
    requires { at < length waiting.now }
    ensures { (d : WaitingOf) → result.now ≡ get_or waiting.now at d }
{
    &waiting[at]
}
