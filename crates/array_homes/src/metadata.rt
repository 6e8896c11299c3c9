// The change that writes the metadata of a new array.
ghost use Rattle.std.specs.Prelude.{◌≡◌, [], ◌∷◌, Some, IfOk, false};
ghost use Rattle.history.specs.Metadata.{is_local, metadata_text};

use crate::forms::written_form;
use cells::{List, copy_name};
use history::Form;
use kv_face::Change;
use std::alloc::{AllocError, Global};

/// The change that writes metadata.
pub fn metadata_change(alloc: Global, key: &str, form: &Form) -> Result<Vec<Change>, AllocError>
    requires { is_local form.now ≡ false }
    ensures { IfOk result (λ v. v.items ≡ record { key = key.now; bytes = Some (metadata_text form.now) } ∷ []) }
{
    let bytes = written_form(alloc, form)?;
    one_change(alloc, key, bytes)
}

fn one_change(alloc: Global, key: &str, bytes: Vec<u8>) -> Result<Vec<Change>, AllocError>
    ensures { IfOk result (λ v. v.items ≡ record { key = key.now; bytes = Some bytes.items } ∷ []) }
{
    let key = copy_name(alloc, key)?;
    let change = Change {
        key,
        bytes: Some(List::wrap(bytes)),
    };
    let mut changes = Vec::new(alloc);
    changes.push(change)?;
    Ok(changes)
}
