// Views: `{"array":N,"transform":{..}}` is the session's array at that place, seen through a transform; with `"cast":DTYPE` its numbers
// are cast.
ghost use Rattle.std.specs.Prelude.{◌≡◌, IfOk};
ghost use Rattle.std.specs.List.{AllByRecursion};
ghost use Rattle.history.specs.History.{History};
ghost use Rattle.history.specs.Refs.{HasKnownRefs, IsKnownRef};
ghost use Rattle.stack_driver.specs.Conditions.{IsView};

use case_lines::{Fault, dtype, member, number};
use cells::{Boxed, Sizes};
use index_transform::Transform;
use serde_json::Value;
use stack_driver::{ArrayRef, View};
use std::alloc::Global;
use transform_json::{JsonError, read_transform};

pub(crate) fn view(alloc: Global, v: &Value, arrays: &[ArrayRef]) -> Result<View, Fault>
    ensures view { IfOk result IsView }
    ensures refs { IfOk result (λ v. (events : History) → AllByRecursion (IsKnownRef events) arrays.now
        → HasKnownRefs events v) }
{
    let place = number(v, "array")?;
    if place >= arrays.len() as u64 {
        return Err(Fault::Line);
    }
    cast(alloc, v, leaf(alloc, v, &arrays[place as usize])?)
}

fn cast(alloc: Global, v: &Value, base: View) -> Result<View, Fault>
    ensures view { IfOk result (λ v. IsView base → IsView v) }
    ensures refs { IfOk result (λ v. (events : History) → HasKnownRefs events base → HasKnownRefs events v) }
{
    if v.get("cast").is_none() {
        return Ok(base);
    }
    let to = dtype(v, "cast")?;
    Ok(View::Cast {
        to,
        base: Boxed::new(alloc, base)?,
    })
}

fn leaf(alloc: Global, v: &Value, array: &ArrayRef) -> Result<View, Fault>
    ensures view { IfOk result IsView }
    ensures refs { IfOk result (λ v. (events : History) → IsKnownRef events array.now → HasKnownRefs events v) }
{
    let transform = transform(alloc, v)?;
    if transform.maps().len() != array.shape.items().len() {
        return Err(Fault::Line);
    }
    Ok(View::Leaf {
        array: copied(alloc, array)?,
        transform,
    })
}

fn transform(alloc: Global, v: &Value) -> Result<Transform, Fault> {
    match read_transform(alloc, member(v, "transform")?) {
        Ok(t) => Ok(t),
        Err(JsonError::Memory) => Err(Fault::Memory),
        Err(_) => Err(Fault::Line),
    }
}

// A reference equal to this one.
fn copied(alloc: Global, array: &ArrayRef) -> Result<ArrayRef, Fault>
    ensures { IfOk result (λ r. r ≡ array.now) }
{
    let shape = array.shape.items().to_vec(alloc)?;
    Ok(ArrayRef {
        number: array.number,
        dtype: array.dtype,
        shape: Sizes::wrap(shape),
        chunk: Sizes::wrap(array.chunk.items().to_vec(alloc)?),
        local: array.local,
    })
}
