// An array that is about to enter the run.
ghost use Rattle.std.specs.Prelude.{◌≡◌, IfOk, false, ◌≤◌, ◌^◌, map, max};
ghost use Rattle.history.specs.Metadata.{is_local, IsMetadata};
ghost use Rattle.stack_driver.specs.References.{IsReference};
ghost use Rattle.array_homes.specs.Homes.{info_at, reference_of};
ghost use Rattle.cells.specs.Places.{cell_count};
ghost use Rattle.history.specs.OpenRows.{given_info};

use crate::arrival::NewArray;
use array_homes::{array_ref, given_info, new_info};
use cells::Dense;
use history::{ArrayInfo, Form};
use std::alloc::{AllocError, Global};

/// The next array, at a place, with this metadata.
pub fn new_array(
    alloc: Global,
    number: u64,
    mount: &str,
    path: &str,
    form: Form,
) -> Result<NewArray, AllocError>
    requires stored { is_local form ≡ false }
    requires valid { IsMetadata form }
    ensures info { IfOk result (λ n. n.info ≡ info_at number mount.now path.now form) }
    ensures form { IfOk result (λ n. n.form ≡ form) }
    ensures array { IfOk result (λ n. n.array ≡ reference_of n.info n.info.shape) }
{
    let copy = form.copy(alloc)?;
    with_info(alloc, number, mount, path, form, copy)
}

fn with_info(
    alloc: Global,
    number: u64,
    mount: &str,
    path: &str,
    form: Form,
    copy: Form,
) -> Result<NewArray, AllocError>
    requires stored { is_local form ≡ false }
    requires valid { IsMetadata form }
    requires same { copy ≡ form }
    ensures info { IfOk result (λ n. n.info ≡ info_at number mount.now path.now form) }
    ensures form { IfOk result (λ n. n.form ≡ form) }
    ensures array { IfOk result (λ n. n.array ≡ reference_of n.info n.info.shape) }
{
    let info = new_info(alloc, number, mount, path, form)?;
    with_ref(alloc, info, copy)
}

/// The next array, with these numbers.
pub fn given_array(alloc: Global, number: u64, start: Dense) -> Result<NewArray, AllocError>
    requires { cell_count (map (max 1) start.shape) ≤ 2 ^ 22 }
    ensures info { IfOk result (λ n. n.info ≡ given_info number start) }
    ensures form { IfOk result (λ n. n.form ≡ Form.Local) }
    ensures array { IfOk result (λ n. n.array ≡ reference_of n.info n.info.shape) }
{
    let _ = start.shape();
    let info = given_info(alloc, number, start)?;
    with_ref(alloc, info, Form::Local)
}

fn with_ref(alloc: Global, info: ArrayInfo, form: Form) -> Result<NewArray, AllocError>
    requires { IsReference (reference_of info info.shape) }
    ensures info { IfOk result (λ n. n.info ≡ info) }
    ensures form { IfOk result (λ n. n.form ≡ form) }
    ensures array { IfOk result (λ n. n.array ≡ reference_of info info.shape) }
{
    let array = array_ref(alloc, &info, info.shape.items())?;
    Ok(NewArray { info, form, array })
}
