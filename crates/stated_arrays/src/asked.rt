// What a leaf asks for.
ghost use Rattle.std.specs.Prelude.{◌≡◌, ◌++◌, ◌∷◌, [], IfOk, IfSome, IfNone, Some, None, Ok, Err, List, ℕ, false};
ghost use Rattle.chunk_forms.specs.Made.{form_made};
ghost use Rattle.chunk_forms.specs.Metadata.{IsMetadata, is_local};
ghost use Rattle.transcript_cut.specs.Openings.{leaf_of};
ghost use Rattle.stated_arrays.specs.Asked.{wanted_leaf, location_asked, IsMadeBy};

use cells::{Dense, Name};
use history::{Form, MadeError, Want, made};
use std::alloc::{AllocError, Global};
use transcript_cut::SpecLeaf;

/// What a stored leaf asks for.
#[derive(Debug, Drop)]
pub struct Asked {
    pub mount: Name,
    pub path: Name,
    pub want: Want,
    pub may_open: bool,
    pub may_create: bool,
}

/// What a leaf asks for: an array of a store, or one with numbers of its own.
#[derive(Debug, Drop)]
pub enum Wanted {
    Stored { asked: Asked },
    Given { start: Dense },
}

/// What a leaf of a Spec asks for.
pub fn wanted_by(leaf: SpecLeaf) -> Wanted
    ensures { wanted_leaf result ≡ leaf_of [] leaf }
{
    match leaf {
        SpecLeaf::Zarr {
            mount,
            path,
            want,
            may_open,
            may_create,
        } => stored(mount, path, Want::Zarr { want }, may_open, may_create),
        SpecLeaf::N5 {
            mount,
            path,
            want,
            may_open,
            may_create,
        } => stored(mount, path, Want::N5 { want }, may_open, may_create),
        SpecLeaf::Zarr3 {
            mount,
            path,
            want,
            may_open,
            may_create,
        } => stored(mount, path, Want::Zarr3 { want }, may_open, may_create),
        SpecLeaf::Given { start } => Wanted::Given { start },
    }
}

fn stored(mount: Name, path: Name, want: Want, may_open: bool, may_create: bool) -> Wanted
    ensures { result
        ≡ Wanted.Stored
        (record { mount = mount; path = path; want = want; may_open = may_open; may_create = may_create }) }
{
    let asked = Asked {
        mount,
        path,
        want,
        may_open,
        may_create,
    };
    Wanted::Stored { asked }
}

/// Where the array lies that a leaf asks for.
pub fn location_of(alloc: Global, asked: &Asked) -> Result<Name, AllocError>
    ensures { IfOk result (λ location. location ≡ location_asked asked.now) }
{
    let mount = asked.mount.items();
    let path = asked.path.items();
    Ok(Name::wrap(format!(in alloc; "{mount}/{path}")?))
}

/// The metadata of a new array that is as it is asked; `None` where that doesn't determine it.
pub fn made_form(alloc: Global, want: &Want) -> Result<Option<Form>, AllocError>
    ensures { IfOk result (IsMadeBy want.now) }
{
    match made(alloc, want) {
        Ok(form) => Ok(Some(looked_at(form))),
        Err(MadeError::Undetermined { .. }) => Ok(None),
        Err(MadeError::Memory) => Err(AllocError),
    }
}

// The metadata, looked at, so that its rules are known.
fn looked_at(form: Form) -> Form
    ensures same { result ≡ form }
    ensures valid { IsMetadata form }
{
    let _ = form.chunk_shape();
    form
}
