// Copies of acts.
ghost use Rattle.std.specs.Prelude.{◌≡◌, Some, IfOk};
ghost use Rattle.stated_acts.specs.Acts.{kept_act};
ghost use Rattle.stated_acts.specs.declared.acts.Act.TheVariants.{Binds, Reads, Writes};

use crate::acts::Act;
use cells::{Name, WrittenWords, copy_name};
use stack_driver::{View, copy};
use std::alloc::{AllocError, Global};

impl Act {
    /// The same again. There is no copy of what an open line asks for, nor of a refusal: such a line is read again.
    ///
    /// # Errors
    /// An allocation failed.
    pub fn copy(&self, alloc: Global) -> Result<Option<Act>, AllocError>
        ensures { IfOk result (λ copy. copy ≡ kept_act self.now) }
    {
        match self {
            Act::Binds { name, view } => copy_binding(alloc, name, view),
            Act::Reads { view } => copy_read(alloc, view),
            Act::Writes { view, words } => copy_write(alloc, view, words),
            Act::Begins { mode } => Ok(Some(Act::Begins { mode: *mode })),
            Act::Commits => Ok(Some(Act::Commits)),
            Act::Aborts => Ok(Some(Act::Aborts)),
            Act::Refused { .. } => Ok(None),
            Act::Opens { .. } => Ok(None),
        }
    }
}

fn copy_binding(alloc: Global, name: &Name, view: &View) -> Result<Option<Act>, AllocError>
    ensures { IfOk result (λ act. act ≡ Some (Binds name.now view.now)) }
{
    let name = copy_name(alloc, name.items())?;
    match copy(alloc, view) {
        Ok(view) => Ok(Some(Act::Binds { name, view })),
        Err(e) => Err(e),
    }
}

fn copy_read(alloc: Global, view: &View) -> Result<Option<Act>, AllocError>
    ensures { IfOk result (λ act. act ≡ Some (Reads view.now)) }
{
    match copy(alloc, view) {
        Ok(view) => Ok(Some(Act::Reads { view })),
        Err(e) => Err(e),
    }
}

fn copy_write(alloc: Global, view: &View, words: &WrittenWords) -> Result<Option<Act>, AllocError>
    ensures { IfOk result (λ act. act ≡ Some (Writes view.now words.now)) }
{
    let words = words.copy(alloc)?;
    match copy(alloc, view) {
        Ok(view) => Ok(Some(Act::Writes { view, words })),
        Err(e) => Err(e),
    }
}
