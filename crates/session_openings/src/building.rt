// The view over arrays that were opened, and the name that is bound to it.
ghost use Rattle.std.specs.Prelude.{◌≡◌, IfOk, length};
ghost use Rattle.sessions.specs.declared.Body.TheVariants as body;
ghost use Rattle.indexmap.specs.IndexMap.{get_by_text};
ghost use Rattle.session_openings.specs.Opened.{IsBuiltBy, IsUnbuilt};
ghost use Rattle.sessions.specs.Told.{IsBoundAs};
ghost use Rattle.spec_open.specs.Built.{built};
ghost use Rattle.spec_open.specs.Conditions.{IsTree};
ghost use Rattle.stack_driver.specs.Views.{look_of, own_transform};

use cells::{List, Name};
use index_transform::Domain;
use sessions::{Body, Names, bound_with};
use spec_open::{BuildError, Tree, build};
use stack_driver::{ArrayRef, View, dtype, transform_of};
use std::alloc::{AllocError, Global};

/// Binds a name to the view of a tree over arrays, and answers with the numbers of the events that were added; or answers why there is
/// none.
pub(crate) fn built(
    alloc: Global,
    names: &mut Names,
    name: &str,
    tree: &Tree,
    arrays: &[ArrayRef],
    events: Vec<u64>,
) -> Body
    requires { IsTree (length arrays.now) tree.now }
    ensures { IsBuiltBy (built arrays.now tree.now) events.items name.now (get_by_text names.old)
        (get_by_text names.new) result }
{
    match build(alloc, tree, arrays) {
        Ok(view) => bound(alloc, names, name, view, events),
        Err(e) => unbuilt(e, events),
    }
}

fn bound(alloc: Global, names: &mut Names, name: &str, view: View, events: Vec<u64>) -> Body
    ensures { IsBoundAs (body.Opened name.now (look_of view).dtype (own_transform view).domain events.items)
        (get_by_text names.old) name.now view (get_by_text names.new) result }
{
    match opened_body(alloc, name, &view, events) {
        Ok(body) => bound_with(alloc, names, name, view, body),
        Err(_) => Body::Memory,
    }
}

fn opened_body(alloc: Global, name: &str, view: &View, events: Vec<u64>) -> Result<Body, AllocError>
    ensures { IfOk result (λ b. b ≡ body.Opened name.now (look_of view.now).dtype
        (own_transform view.now).domain events.items) }
{
    let (name, domain) = name_and_domain(alloc, name, view)?;
    Ok(Body::Opened {
        name,
        dtype: dtype(view),
        domain,
        events: List::wrap(events),
    })
}

fn name_and_domain(alloc: Global, name: &str, view: &View) -> Result<(Name, Domain), AllocError>
    ensures { IfOk result (λ p. (p.0 ≡ name.now) × (p.1 ≡ (own_transform view.now).domain)) }
{
    let name = String::from_str(alloc, name)?;
    let domain = transform_of(view).domain().copy(alloc)?;
    Ok((Name::wrap(name), domain))
}

fn unbuilt(e: BuildError, events: Vec<u64>) -> Body
    ensures { IsUnbuilt e events.items result }
{
    match e {
        BuildError::Refused { path, cause } => Body::RefusedSpec {
            path,
            cause,
            events: List::wrap(events),
        },
        BuildError::Memory => Body::Memory,
    }
}
