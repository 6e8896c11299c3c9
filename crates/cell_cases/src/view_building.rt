// A view, by one act after another.
ghost use Rattle.std.specs.Prelude.{◌≡◌, ◌<◌, ◌≤◌, IfOk, IsTrue, length};
ghost use Rattle.std.specs.List.{AllByRecursion};
ghost use Rattle.stack_driver.specs.Conditions.{IsView};
ghost use Rattle.stack_driver.specs.Renewed.{MayRenew, IsNewShape};

use crate::refused::Refused;
use crate::view_joins::{is_join, joined};
use case_lines::{array_of as array_in, dtype, number, sizes_of};
use cells::{Boxed, is_shape};
use index_transform::Transform;
use serde_json::Value;
use stack_driver::{
    ArrayRef, View, array_of, copy, renew, set_transform, transform_of, whole, with_transform,
};
use std::alloc::Global;
use transform_json::read_transform;

// The last of the views that are made by some acts.
pub(crate) fn built(alloc: Global, acts: &[Value]) -> Result<View, Refused>
    ensures { IfOk result IsView }
{
    let mut made = Vec::new(alloc);
    for act in acts {
        made = after(alloc, made, act)?;
    }
    made.pop().ok_or(Refused::Line)
}

// The views after an act: `array` puts a whole array behind them, `again` copies of the last, `stack` and the joins make one of
// all, and others change the last.
fn after(alloc: Global, made: Vec<View>, act: &Value) -> Result<Vec<View>, Refused>
    requires { AllByRecursion IsView made.items }
    ensures { IfOk result (λ views. AllByRecursion IsView views.items) }
{
    if act.get("array").is_some() {
        let view = leaf(alloc, act)?;
        return with(made, view);
    }
    if let Some(times) = act.get("again") {
        return again(alloc, made, times.as_u64().ok_or(Refused::Line)?);
    }
    if act.get("stack").is_some() {
        return stacked(alloc, made);
    }
    if is_join(act) {
        return all_joined(alloc, made, act);
    }
    changed_last(alloc, made, act)
}

// The view of the whole array that an act names, `array` being its number.
fn leaf(alloc: Global, act: &Value) -> Result<View, Refused>
    ensures { IfOk result IsView }
{
    let number = number(act, "array")?;
    let array = array_in(alloc, number, act)?;
    Ok(whole(alloc, array)?)
}

fn with(made: Vec<View>, view: View) -> Result<Vec<View>, Refused>
    requires views { AllByRecursion IsView made.items }
    requires view { IsView view }
    ensures { IfOk result (λ views. AllByRecursion IsView views.items) }
{
    let mut views = made;
    views.push(view)?;
    Ok(views)
}

// The views, and so many copies of the last behind them.
fn again(alloc: Global, made: Vec<View>, times: u64) -> Result<Vec<View>, Refused>
    requires { AllByRecursion IsView made.items }
    ensures { IfOk result (λ views. AllByRecursion IsView views.items) }
{
    let mut views = made;
    'copies: for _ in 0..times {
        views = copied(alloc, views)?;
    }
    Ok(views)
}

// The views, and a copy of the last behind them.
fn copied(alloc: Global, made: Vec<View>) -> Result<Vec<View>, Refused>
    requires { AllByRecursion IsView made.items }
    ensures { IfOk result (λ views. AllByRecursion IsView views.items) }
{
    let mut views = made;
    let Some(view) = views.pop() else {
        return Err(Refused::Line);
    };
    let another = copy(alloc, &view)?;
    let views = with(views, view)?;
    with(views, another)
}

fn stacked(alloc: Global, made: Vec<View>) -> Result<Vec<View>, Refused>
    requires { AllByRecursion IsView made.items }
    ensures { IfOk result (λ views. AllByRecursion IsView views.items) }
{
    if made.is_empty() || made.len() > 256 {
        return Err(Refused::Line);
    }
    let view = View::stack(alloc, made)?;
    with(Vec::new(alloc), view)
}

fn all_joined(alloc: Global, made: Vec<View>, act: &Value) -> Result<Vec<View>, Refused>
    requires { AllByRecursion IsView made.items }
    ensures { IfOk result (λ views. AllByRecursion IsView views.items) }
{
    if made.is_empty() || made.len() > 256 {
        return Err(Refused::Line);
    }
    let view = joined(alloc, made, act)?;
    with(Vec::new(alloc), view)
}

fn changed_last(alloc: Global, made: Vec<View>, act: &Value) -> Result<Vec<View>, Refused>
    requires { AllByRecursion IsView made.items }
    ensures { IfOk result (λ views. AllByRecursion IsView views.items) }
{
    let mut views = made;
    let Some(view) = views.pop() else {
        return Err(Refused::Line);
    };
    let view = changed(alloc, view, act)?;
    with(views, view)
}

// A view under an act: `cast` to a dtype, `under` a further transform, `given` another own transform, `renew` by a shape,
// or a `copy`.
fn changed(alloc: Global, view: View, act: &Value) -> Result<View, Refused>
    requires { IsView view }
    ensures { IfOk result IsView }
{
    if act.get("cast").is_some() {
        return cast(alloc, view, act);
    }
    if let Some(t) = act.get("under") {
        return under(alloc, view, t);
    }
    if let Some(t) = act.get("given") {
        return given(alloc, view, t);
    }
    if let Some(shape) = act.get("renew") {
        return renewed(alloc, view, shape);
    }
    if act.get("copy").is_some() {
        return Ok(copy(alloc, &view)?);
    }
    Err(Refused::Line)
}

fn cast(alloc: Global, view: View, act: &Value) -> Result<View, Refused>
    requires { IsView view }
    ensures { IfOk result IsView }
{
    let to = dtype(act, "cast")?;
    Ok(View::Cast {
        to,
        base: Boxed::new(alloc, view)?,
    })
}

fn under(alloc: Global, view: View, t: &Value) -> Result<View, Refused>
    requires { IsView view }
    ensures { IfOk result IsView }
{
    let t = transform(alloc, t)?;
    Ok(with_transform(alloc, view, &t)?)
}

fn transform(alloc: Global, t: &Value) -> Result<Transform, Refused> {
    match read_transform(alloc, t) {
        Ok(t) => Ok(t),
        Err(_) => Err(Refused::Line),
    }
}

fn given(alloc: Global, view: View, t: &Value) -> Result<View, Refused>
    requires { IsView view }
    ensures { IfOk result IsView }
{
    let t = transform(alloc, t)?;
    if t.maps().len() != transform_of(&view).maps().len() {
        return Err(Refused::Line);
    }
    let mut view = view;
    set_transform(&mut view, t);
    Ok(view)
}

fn renewed(alloc: Global, view: View, shape: &Value) -> Result<View, Refused>
    requires { IsView view }
    ensures { IfOk result IsView }
{
    let shape = sizes_of(alloc, shape)?;
    if !may_renew(&view, &shape) {
        return Err(Refused::Line);
    }
    Ok(renew(alloc, view, &shape)?)
}

fn may_renew(view: &View, shape: &[u64]) -> bool
    ensures { IsTrue result → MayRenew view.now shape.now }
{
    match array_of(view) {
        Some(array) => is_new_shape(array, shape),
        None => true,
    }
}

fn is_new_shape(array: &ArrayRef, shape: &[u64]) -> bool
    ensures { IsTrue result → IsNewShape array.now shape.now }
{
    let own = array.shape.items();
    is_shape(shape) && shape.len() == own.len() && (!array.local || shape == own)
}
