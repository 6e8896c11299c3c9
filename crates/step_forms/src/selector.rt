// What selects dimensions.
ghost use Rattle.std.specs.Prelude.{◌≡◌, IfOk, Some, option_map};
ghost use Rattle.serde_json.specs.View.{view};
ghost use Rattle.step_forms.specs.Forms.{index_of, list_by};
ghost use Rattle.step_forms.specs.Acts.{range_of, label_of, selector_of};
ghost use Rattle.step_forms.specs.declared.act.Select.TheVariants as select;

use crate::act::Select;
use crate::numbers::{index_of, name_of};
use crate::slices::{has_only, index_at};
use index_transform::List;
use json_forms::list_items;
use serde_json::Value;
use std::alloc::{AllocError, Global};

fn range_of(value: &Value) -> Option<Select>
    ensures { result ≡ range_of (view value.now) }
{
    if !has_only(value, &["start", "step", "stop"]) {
        return None;
    }
    let start = index_at(value, "start")?;
    let stop = index_at(value, "stop")?;
    let step = index_at(value, "step")?.unwrap_or(1);
    if step == 0 {
        None
    } else {
        Some(Select::Range { start, stop, step })
    }
}

fn label_of(alloc: Global, text: &str) -> Result<Option<Select>, AllocError>
    ensures { IfOk result (λ o. o ≡ label_of text.now) }
{
    if text.is_empty() {
        return Ok(None);
    }
    let label = name_of(alloc, text)?;
    Ok(Some(Select::Label { label }))
}

fn selector_of(alloc: Global, value: &Value) -> Result<Option<Select>, AllocError>
    ensures { IfOk result (λ o. o ≡ selector_of (view value.now)) }
{
    if let Some(number) = index_of(value) {
        return Ok(Some(Select::Position { number }));
    }
    match value.as_str() {
        Some(text) => label_of(alloc, text),
        None => Ok(range_of(value)),
    }
}

/// The selectors of a list.
pub(crate) fn selectors_of(alloc: Global, value: &Value) -> Result<Option<List<Select>>, AllocError>
    ensures { IfOk result (λ o. o ≡ list_by selector_of (view value.now)) }
{
    let Some(items) = list_items(value) else {
        return Ok(None);
    };
    let mut selectors = Vec::with_capacity(alloc, items.len())?;
    for item in items {
        let Some(selector) = selector_of(alloc, item)? else {
            return Ok(None);
        };
        selectors.push(selector)?;
    }
    Ok(Some(List::wrap(selectors)))
}

/// The positions of a list.
pub(crate) fn positions_of(alloc: Global, value: &Value) -> Result<Option<List<Select>>, AllocError>
    ensures { IfOk result (λ o. o ≡ list_by (λ x. option_map select.Position (index_of x)) (view value.now)) }
{
    let Some(items) = list_items(value) else {
        return Ok(None);
    };
    let mut selectors = Vec::with_capacity(alloc, items.len())?;
    for item in items {
        let Some(number) = index_of(item) else {
            return Ok(None);
        };
        selectors.push(Select::Position { number })?;
    }
    Ok(Some(List::wrap(selectors)))
}
