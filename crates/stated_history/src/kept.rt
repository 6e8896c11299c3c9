// What lines state, and what is kept of them.
ghost use Rattle.std.specs.Prelude.{◌≡◌, ◌++◌, ◌∷◌, [], OnOk};
ghost use Rattle.stated_acts.specs.Acts.{kept_act};

use crate::putting::Commit;
use cells::List;
use stated_acts::Act;
use std::alloc::{AllocError, Global};

/// What lines state: the commit of each that prints a number of one, and what each does, but where it opens something or is refused.
#[derive(Drop)]
pub struct StatedLines {
    pub commits: List<Option<Commit>>,
    pub acts: List<Option<Act>>,
}

/// Keeps what a line does.
///
/// # Errors
/// An allocation failed.
pub(crate) fn keep(alloc: Global, acts: &mut Vec<Option<Act>>, act: &Act) -> Result<(), AllocError>
    ensures { OnOk result (acts.new.items ≡ acts.old.items ++ kept_act act.now ∷ []) }
{
    acts.push(act.copy(alloc)?)?;
    Ok(())
}
