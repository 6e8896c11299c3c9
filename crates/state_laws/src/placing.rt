// Where a leaf lies.
ghost use Rattle.std.specs.Prelude.{◌≡◌, ◌++◌, ◌∷◌, IfOk};
ghost use Rattle.state_laws.specs.Placed.{place_at};

use crate::place::{Names, Place};
use array_homes::metadata_key_asked;
use cells::{Name, copy_name};
use history::Want;
use std::alloc::{AllocError, Global};

/// Where a leaf lies, by what is asked of it.
pub fn place_of(alloc: Global, mount: &str, path: &str, want: &Want) -> Result<Place, AllocError>
    ensures { IfOk result (λ p. p ≡ place_at mount.now path.now want.now) }
{
    let names = names_of(alloc, mount, path)?;
    located(alloc, names, want)
}

fn names_of(alloc: Global, mount: &str, path: &str) -> Result<Names, AllocError>
    ensures { IfOk result (λ n. n ≡ record { mount = mount.now; path = path.now }) }
{
    let mount = copy_name(alloc, mount)?;
    let path = copy_name(alloc, path)?;
    Ok(Names { mount, path })
}

fn located(alloc: Global, names: Names, want: &Want) -> Result<Place, AllocError>
    ensures { IfOk result (λ p. p ≡ place_at names.mount names.path want.now) }
{
    let location = location_of(alloc, names.mount.items(), names.path.items())?;
    with_key(alloc, names, location, want)
}

fn location_of(alloc: Global, mount: &str, path: &str) -> Result<Name, AllocError>
    ensures { IfOk result (λ location. location ≡ mount.now ++ 47 ∷ path.now) }
{
    Ok(Name::wrap(format!(in alloc; "{mount}/{path}")?))
}

fn with_key(alloc: Global, names: Names, location: Name, want: &Want) -> Result<Place, AllocError>
    requires { location ≡ names.mount ++ 47 ∷ names.path }
    ensures { IfOk result (λ p. p ≡ place_at names.mount names.path want.now) }
{
    let key = metadata_key_asked(alloc, names.mount.items(), names.path.items(), want)?;
    Ok(Place {
        names,
        location,
        key: Name::wrap(key),
    })
}
