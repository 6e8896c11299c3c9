// Transforms and views as text.
use crate::fault::Fault;
use index_transform::Transform;
use stack_driver::{View, dtype, transform_of};
use std::alloc::Global;
use transform_json::write_transform;

/// The dtype of a view, and its own transform as JSON.
pub fn look(alloc: Global, view: &View) -> Result<String, Fault> {
    let mut text = String::from_str(alloc, dtype(view).name())?;
    text.push(' ')?;
    put_transform(alloc, &mut text, transform_of(view))?;
    Ok(text)
}

fn put_transform(alloc: Global, text: &mut String, t: &Transform) -> Result<(), Fault> {
    let json = transform_text(alloc, t)?;
    Ok(text.push_str(&json)?)
}

/// A transform, as JSON.
pub fn transform_text(alloc: Global, t: &Transform) -> Result<String, Fault> {
    Ok(write_transform(alloc, t)?.to_string(alloc)?)
}
