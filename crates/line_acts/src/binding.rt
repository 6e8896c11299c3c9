// Names bound to views, and the answers that they are.
ghost use Rattle.std.specs.Prelude.{◌≡◌, IfOk};
ghost use Rattle.line_meanings.specs.declared.Body.TheVariants.{Viewed};
ghost use Rattle.indexmap.specs.IndexMap.{get_by_text};
ghost use Rattle.line_acts.specs.Bound.{IsBoundAs};
ghost use Rattle.stack_driver.specs.Views.{look_of, own_transform};

use crate::names::{Names, bind};
use cells::Name;
use line_meanings::{Body, transform_has_few_lists};
use stack_driver::{View, dtype, transform_of};
use std::alloc::{AllocError, Global};

/// Binds a name to a view, and answers that it is; want of memory where its transform takes too many lists to be written.
pub fn bound(alloc: Global, names: &mut Names, name: &str, view: View) -> Body
    ensures { IsBoundAs (Viewed name.now (look_of view).dtype (own_transform view))
        (get_by_text names.old) name.now view (get_by_text names.new) result }
{
    match viewed_body(alloc, name, &view) {
        Ok(body) => bound_with(alloc, names, name, view, body),
        Err(_) => Body::Memory,
    }
}

/// Binds a name to a view, and answers by a body.
pub fn bound_with(alloc: Global, names: &mut Names, name: &str, view: View, body: Body) -> Body
    ensures { IsBoundAs body (get_by_text names.old) name.now view (get_by_text names.new) result }
{
    if bind(alloc, names, name, view) {
        body
    } else {
        Body::Memory
    }
}

/// The answer that a name is bound to a view: the view's dtype and transform.
///
/// # Errors
/// An allocation failed, or the transform takes too many lists to be written.
pub fn viewed_body(alloc: Global, name: &str, view: &View) -> Result<Body, AllocError>
    ensures { IfOk result (λ b. b ≡ Viewed name.now (look_of view.now).dtype (own_transform view.now)) }
{
    if !transform_has_few_lists(transform_of(view)) {
        return Err(AllocError);
    }
    let transform = transform_of(view).copy(alloc)?;
    let name = String::from_str(alloc, name)?;
    Ok(Body::Viewed {
        name: Name::wrap(name),
        dtype: dtype(view),
        transform,
    })
}
