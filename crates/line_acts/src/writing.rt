// The words of a write.
ghost use Rattle.std.specs.Prelude.{◌≡◌, ◌≤◌, ◌^◌, ℕ, Ok, None, List, Option, IfOk, IfErr, All, length};
ghost use Rattle.std.specs.List.{AllByRecursion};
ghost use Rattle.cells.specs.Numbers.{IsWord};
ghost use Rattle.cells.specs.Places.{cell_count};
ghost use Rattle.history.specs.Acts.{Asked, with_values, without, write_act, act_of};
ghost use Rattle.history.specs.Bound.{AreKnownNames};
ghost use Rattle.history.specs.Commit.{Transaction};
ghost use Rattle.history.specs.History.{History};
ghost use Rattle.history.specs.Lines.{writing};
ghost use Rattle.history.specs.Refs.{HasKnownRefs};
ghost use Rattle.history.specs.Viewing.{shape_of as sizes_of, view_fault, cell_fault};
ghost use Rattle.index_transform.specs.Cells.{cells_of, count_answer};
ghost use Rattle.indexmap.specs.IndexMap.{get_by_text};
ghost use Rattle.line_acts.specs.Bound.{AreViews};
ghost use Rattle.line_acts.specs.Refused.{IsAnswerTo};
ghost use Rattle.line_meanings.specs.Changes.{changes_of};
ghost use Rattle.line_meanings.specs.Numbers.{values_of};
ghost use Rattle.script_lines.specs.NestedWords.{words_of};
ghost use Rattle.serde_json.specs.View.{view as data_in};
ghost use Rattle.stack_driver.specs.Conditions.{IsView};
ghost use Rattle.stack_driver.specs.Views.{look_of};
ghost use Rattle.step_forms.specs.Given.{IsGiven};

use crate::cell_faults::counted;
use crate::changing::seen;
use crate::names::Names;
use crate::values::shape_of;
use cells::{Dtype, WrittenWords};
use line_meanings::Body;
use script_lines::{ValuesError, words_of_values};
use serde_json::Value;
use stack_driver::{View, dtype};
use std::alloc::Global;
use step_forms::Step;

/// A view, and a word for each of its cells in C order.
#[derive(Drop)]
pub struct Worded {
    pub view: View,
    pub words: WrittenWords,
}

/// The view and the words of a write, or the answer to what refuses it before its cells are looked for. The values are dropped as soon as there
/// are words for them.
pub fn taken_write(
    alloc: Global,
    names: &Names,
    name: &str,
    steps: &[Step],
    values: Value,
) -> Result<Worded, Body>
    requires given { All IsGiven steps.now }
    requires views { AreViews (get_by_text names.now) }
    ensures act { IfOk result (λ w. (t : Option Transaction)
        → act_of (get_by_text names.now) t (writing name.now (changes_of None steps.now) (values_of (data_in values)))
        ≡ without (cell_fault w.view) (Ok (write_act t w.view w.words))) }
    ensures view { IfOk result (λ w. IsView w.view) }
    ensures refs { IfOk result (λ w. (events : History) → AreKnownNames events (get_by_text names.now)
        → HasKnownRefs events w.view) }
    ensures count { IfOk result (λ w. count_answer (look_of w.view).dims ≡ Ok (length w.words)) }
    ensures typed { IfOk result (λ w. AllByRecursion (IsWord (look_of w.view).dtype) w.words) }
    ensures err { IfErr result (λ b. (t : Option Transaction)
        → IsAnswerTo (act_of (get_by_text names.now) t
        (writing name.now (changes_of None steps.now) (values_of (data_in values)))) b) }
{
    asked_write(alloc, names, name, steps, &values)
}

// The same with values that stay.
fn asked_write(
    alloc: Global,
    names: &Names,
    name: &str,
    steps: &[Step],
    values: &Value,
) -> Result<Worded, Body>
    requires given { All IsGiven steps.now }
    requires views { AreViews (get_by_text names.now) }
    ensures act { IfOk result (λ w. (t : Option Transaction)
        → act_of (get_by_text names.now) t (writing name.now (changes_of None steps.now)
        (values_of (data_in values.now))) ≡ without (cell_fault w.view) (Ok (write_act t w.view w.words))) }
    ensures view { IfOk result (λ w. IsView w.view) }
    ensures refs { IfOk result (λ w. (events : History) → AreKnownNames events (get_by_text names.now)
        → HasKnownRefs events w.view) }
    ensures count { IfOk result (λ w. count_answer (look_of w.view).dims ≡ Ok (length w.words)) }
    ensures typed { IfOk result (λ w. AllByRecursion (IsWord (look_of w.view).dtype) w.words) }
    ensures err { IfErr result (λ b. (t : Option Transaction)
        → IsAnswerTo (act_of (get_by_text names.now) t
        (writing name.now (changes_of None steps.now) (values_of (data_in values.now)))) b) }
{
    match seen(alloc, names, name, steps) {
        Ok(view) => with_words(alloc, view, values),
        Err(body) => Err(body),
    }
}

fn with_words(alloc: Global, view: View, values: &Value) -> Result<Worded, Body>
    ensures view { IfOk result (λ w. w.view ≡ view) }
    ensures count { IfOk result (λ w. count_answer (look_of view).dims ≡ Ok (length w.words)) }
    ensures typed { IfOk result (λ w. AllByRecursion (IsWord (look_of view).dtype) w.words) }
    ensures value { IfOk result (λ w. (next : List ℕ → Asked)
        → without (view_fault view) (with_values
        (words_of (look_of view).dtype (sizes_of view) (data_in values.now)) next) ≡ next w.words) }
    ensures err { IfErr result (λ b. (next : List ℕ → Asked)
        → IsAnswerTo (without (view_fault view)
        (with_values (words_of (look_of view).dtype (sizes_of view) (data_in values.now)) next)) b) }
{
    match words_for(alloc, &view, values) {
        Ok(words) => Ok(Worded { view, words }),
        Err(body) => Err(body),
    }
}

// A word for each cell of a view, or the answer to what refuses the view or the values.
fn words_for(alloc: Global, v: &View, values: &Value) -> Result<WrittenWords, Body>
    ensures count { IfOk result (λ words. count_answer (look_of v.now).dims ≡ Ok (length words)) }
    ensures typed { IfOk result (λ words. AllByRecursion (IsWord (look_of v.now).dtype) words) }
    ensures value { IfOk result (λ words. (next : List ℕ → Asked)
        → without (view_fault v.now) (with_values
        (words_of (look_of v.now).dtype (sizes_of v.now) (data_in values.now)) next) ≡ next words) }
    ensures err { IfErr result (λ b. (next : List ℕ → Asked)
        → IsAnswerTo (without (view_fault v.now)
        (with_values (words_of (look_of v.now).dtype (sizes_of v.now) (data_in values.now)) next)) b) }
{
    match counted(v) {
        Ok(_) => fitted(alloc, v, values),
        Err(body) => Err(body),
    }
}

fn fitted(alloc: Global, v: &View, values: &Value) -> Result<WrittenWords, Body>
    requires { count_answer (look_of v.now).dims ≡ Ok (length (cells_of (look_of v.now).dims)) }
    ensures count { IfOk result (λ words. count_answer (look_of v.now).dims ≡ Ok (length words)) }
    ensures typed { IfOk result (λ words. AllByRecursion (IsWord (look_of v.now).dtype) words) }
    ensures value { IfOk result (λ words. words_of (look_of v.now).dtype (sizes_of v.now) (data_in values.now)
        ≡ Ok words) }
    ensures err { IfErr result (λ b. (next : List ℕ → Asked)
        → IsAnswerTo (with_values (words_of (look_of v.now).dtype (sizes_of v.now) (data_in values.now)) next) b) }
{
    match shape_of(alloc, v) {
        Ok(shape) => words_in(alloc, dtype(v), &shape, values),
        Err(_) => Err(Body::Memory),
    }
}

fn words_in(
    alloc: Global,
    dtype: Dtype,
    shape: &[u64],
    values: &Value,
) -> Result<WrittenWords, Body>
    requires { cell_count shape.now ≤ 2 ^ 22 }
    ensures value { IfOk result (λ words. words_of dtype shape.now (data_in values.now) ≡ Ok words) }
    ensures full { IfOk result (λ words. length words ≡ cell_count shape.now) }
    ensures of_dtype { IfOk result (λ words. All (IsWord dtype) words) }
    ensures err { IfErr result (λ b. (next : List ℕ → Asked)
        → IsAnswerTo (with_values (words_of dtype shape.now (data_in values.now)) next) b) }
{
    match words_of_values(alloc, dtype, shape, values) {
        Ok(words) => Ok(words),
        Err(ValuesError::Bad { path }) => Err(Body::BadValues { path }),
        Err(ValuesError::Memory) => Err(Body::Memory),
    }
}
