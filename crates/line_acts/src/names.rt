// The views that names are bound to.
ghost use Rattle.std.specs.Prelude.{◌≡◌, Some, None, true, false, IfOk, IfErr, string_bytes};
ghost use Rattle.history.specs.Acts.{Asked, named as only_named};
ghost use Rattle.history.specs.Sessions.{bind};
ghost use Rattle.indexmap.specs.IndexMap.{get_by_text};
ghost use Rattle.line_acts.specs.Refused.{IsAnswerTo};
ghost use Rattle.stack_driver.specs.declared.view.View.{View as ViewOf};

use cells::Name;
use indexmap::IndexMap;
use line_meanings::Body;
use stack_driver::{View, copy};
use std::alloc::{AllocError, Global};

/// The views that names are bound to.
pub type Names = IndexMap<String, View>;

/// Binds a name to a view, in place of the one that it was bound to; answers whether there was memory for it.
pub fn bind(alloc: Global, names: &mut Names, name: &str, view: View) -> bool
    ensures bound { result ≡ true → get_by_text names.new ≡ bind (get_by_text names.old) name.now view }
    ensures kept { result ≡ false → get_by_text names.new ≡ get_by_text names.old }
{
    match String::from_str(alloc, name) {
        Ok(text) => put(names, text, view),
        Err(_) => false,
    }
}

fn put(names: &mut Names, name: String, view: View) -> bool
    ensures bound { result ≡ true → get_by_text names.new ≡ bind (get_by_text names.old) (string_bytes name) view }
    ensures kept { result ≡ false → get_by_text names.new ≡ get_by_text names.old }
{
    match names.insert(name, view) {
        Ok(_) => true,
        Err(_) => false,
    }
}

/// A copy of the view that a name is bound to, or the answer that there is none.
pub fn named(alloc: Global, names: &Names, name: &str) -> Result<View, Body>
    ensures view { IfOk result (λ v. get_by_text names.now name.now ≡ Some v) }
    ensures err { IfErr result (λ b. (next : ViewOf → Asked)
        → IsAnswerTo (only_named name.now (get_by_text names.now name.now) next) b) }
{
    match names.get(name) {
        Some(view) => copied(alloc, view),
        None => Err(unknown(alloc, name)),
    }
}

fn copied(alloc: Global, view: &View) -> Result<View, Body>
    ensures view { IfOk result (λ v. v ≡ view.now) }
    ensures err { IfErr result (λ b. b ≡ Body.Memory) }
{
    match copy(alloc, view) {
        Ok(view) => Ok(view),
        Err(_) => Err(Body::Memory),
    }
}

/// The answer that a name is bound to no view.
pub fn unknown(alloc: Global, name: &str) -> Body
    ensures { (next : ViewOf → Asked) → IsAnswerTo (only_named name.now None next) result }
{
    match String::from_str(alloc, name) {
        Ok(text) => Body::UnknownName {
            name: Name::wrap(text),
        },
        Err(_) => Body::Memory,
    }
}
