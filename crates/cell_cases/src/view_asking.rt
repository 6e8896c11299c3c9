// What is asked of a view.
ghost use Rattle.stack_driver.specs.Conditions.{IsView};

use crate::refused::Refused;
use crate::view_downs::downsampled;
use case_lines::{look, member, number, numbers_of};
use cells::{List, WrittenWords};
use history::{Op, Ops};
use serde_json::Value;
use stack_driver::{
    TargetError, View, array_of, casts, contains, copy, depth, leaves, target, transform_of,
};
use stack_targets::{TargetsError, array_at, casts_at, has_leaf, targets};
use std::alloc::Global;
use std::fmt::Debug;

pub(crate) fn asked(alloc: Global, view: &View, call: &str, v: &Value) -> Result<String, Refused>
    requires { IsView view.now }
{
    match call {
        "look" => Ok(look(alloc, view)?),
        "target" => target_at(alloc, view, member(v, "index")?),
        "counts" => told(alloc, &(leaves(view), depth(view))),
        "casts" => told(alloc, &casts(alloc, view)?),
        "array" => told(alloc, &array_of(view)),
        "down" => downsampled(alloc, view, v),
        "ops" => shared(&one_write(alloc, view)?, alloc),
        "targets" => all_targets(alloc, view),
        "leaf" => leaf_told(alloc, view, number(v, "leaf")?),
        _ => Err(Refused::Line),
    }
}

fn target_at(alloc: Global, view: &View, index: &Value) -> Result<String, Refused>
    requires { IsView view.now }
{
    let index = numbers_of(alloc, index)?;
    target_told(alloc, view, &index)
}

fn target_told(alloc: Global, view: &View, index: &[i64]) -> Result<String, Refused>
    requires { IsView view.now }
{
    if !contains(view, index) {
        return Err(Refused::Line);
    }
    match target(alloc, view, index) {
        Ok(found) => told(alloc, &found),
        Err(TargetError::Memory) => Err(Refused::Memory),
        Err(e) => told(alloc, &e),
    }
}

// The targets of all cells of a finite view.
fn all_targets(alloc: Global, view: &View) -> Result<String, Refused>
    requires { IsView view.now }
{
    if !transform_of(view).is_finite() {
        return Err(Refused::Line);
    }
    match targets(alloc, view) {
        Ok(found) => told(alloc, &found),
        Err(TargetsError::Memory) => Err(Refused::Memory),
        Err(e) => told(alloc, &e),
    }
}

// The array and the casts of a leaf.
fn leaf_told(alloc: Global, view: &View, leaf: u64) -> Result<String, Refused>
    requires { IsView view.now }
{
    let leaf = u32::try_from(leaf).unwrap_or(u32::MAX);
    if !has_leaf(view, leaf) {
        return Err(Refused::Line);
    }
    let chain = casts_at(alloc, view, leaf)?;
    told(alloc, &(array_at(view, leaf).number, chain))
}

// A list of one operation, a write of no words.
fn one_write(alloc: Global, view: &View) -> Result<Ops, Refused> {
    let mut ops = Vec::with_capacity(alloc, 1)?;
    ops.push(Op::Write {
        view: copy(alloc, view)?,
        words: WrittenWords::each(Vec::new(alloc)),
    })?;
    Ok(Ops::wrap(alloc, List::wrap(ops))?)
}

// How many operations a list has, and how many its share has.
fn shared(ops: &Ops, alloc: Global) -> Result<String, Refused> {
    let again = ops.share()?;
    told(alloc, &(ops.items().len(), again.items().len()))
}

// Any answer, by its Debug.
pub(crate) fn told<T: Debug>(alloc: Global, value: &T) -> Result<String, Refused> {
    Ok(format!(in alloc; "{value:?}")?)
}
