// Joined views.
ghost use Rattle.std.specs.Prelude.{◌≡◌, ◌≢◌, ◌<◌, ◌≤◌, ◌∷◌, ◌++◌, List, [], Ok, Err, Option, Some, IfOk, IfErr, OnOk, All, length};
ghost use Rattle.std.specs.List.{AllByRecursion};
ghost use Rattle.history.specs.Acts.{Asked, binds, named as one_named, all_named as only_named, with_join, act_of};
ghost use Rattle.history.specs.Answers.{Text};
ghost use Rattle.history.specs.Commit.{Transaction};
ghost use Rattle.history.specs.Lines.{joining};
ghost use Rattle.indexmap.specs.IndexMap.{get_by_text};
ghost use Rattle.layer_join.specs.Joins.{join_answer};
ghost use Rattle.layer_join.specs.declared.error.JoinError.TheVariants as join_error;
ghost use Rattle.line_acts.specs.Bound.{AreViews};
ghost use Rattle.line_acts.specs.Refused.{IsAnswerTo};
ghost use Rattle.line_meanings.specs.Form.{AreLayers};
ghost use Rattle.line_meanings.specs.Changes.{changes_of};
ghost use Rattle.line_meanings.specs.Joins.{form_of, join_of};
ghost use Rattle.stack_driver.specs.Conditions.{IsView};
ghost use Rattle.stack_driver.specs.declared.view.View.{View as ViewOf};
ghost use Rattle.step_forms.specs.Given.{IsGiven};

use crate::causes::joined_body;
use crate::changing::changed;
use crate::names::{Names, named};
use cells::Name;
use index_transform::Transform;
use layer_join::{JoinError, concat, overlay, stack};
use line_meanings::{Body, JoinForm};
use stack_driver::View;
use std::alloc::Global;
use step_forms::Step;

/// The view that a line joins, seen through its transform and steps, or the answer to what refuses it.
pub fn joined(
    alloc: Global,
    names: &Names,
    form: JoinForm,
    layers: &[Name],
    transform: &Option<Transform>,
    steps: &[Step],
) -> Result<View, Body>
    requires given { All IsGiven steps.now }
    requires layers { AreLayers layers.now }
    requires views { AreViews (get_by_text names.now) }
    ensures value { IfOk result (λ v. (name : Text) (t : Option Transaction)
        → act_of (get_by_text names.now) t (joining name layers.now (join_of form)
        (changes_of transform.now steps.now)) ≡ Ok (binds name v)) }
    ensures view { IfOk result IsView }
    ensures err { IfErr result (λ b. (name : Text) (t : Option Transaction)
        → IsAnswerTo (act_of (get_by_text names.now) t
        (joining name layers.now (join_of form) (changes_of transform.now steps.now))) b) }
{
    match joined_layers(alloc, names, form, layers) {
        Ok(view) => changed(alloc, view, transform, steps),
        Err(body) => Err(body),
    }
}

fn joined_layers(
    alloc: Global,
    names: &Names,
    form: JoinForm,
    layers: &[Name],
) -> Result<View, Body>
    requires layers { AreLayers layers.now }
    requires views { AreViews (get_by_text names.now) }
    ensures value { IfOk result (λ v. (next : ViewOf → Asked)
        → only_named (get_by_text names.now) layers.now (λ views. with_join (join_of form views) next) ≡ next v) }
    ensures view { IfOk result IsView }
    ensures err { IfErr result (λ b. (next : ViewOf → Asked)
        → IsAnswerTo (only_named (get_by_text names.now) layers.now (λ views. with_join (join_of form views) next)) b) }
{
    match all_named(alloc, names, layers) {
        Ok(views) => over(alloc, form, views),
        Err(body) => Err(body),
    }
}

fn over(alloc: Global, form: JoinForm, views: Vec<View>) -> Result<View, Body>
    requires some { 0 < length views.items }
    requires few { length views.items ≤ 256 }
    requires views { AllByRecursion IsView views.items }
    ensures value { IfOk result (λ v. join_of form views.items ≡ Ok v) }
    ensures view { IfOk result IsView }
    ensures err { IfErr result (λ b. (next : ViewOf → Asked)
        → IsAnswerTo (with_join (join_of form views.items) next) b) }
{
    match joined_by(alloc, form, views) {
        Ok(view) => Ok(view),
        Err(e) => Err(joined_body(e)),
    }
}

fn joined_by(alloc: Global, form: JoinForm, views: Vec<View>) -> Result<View, JoinError>
    requires some { 0 < length views.items }
    requires few { length views.items ≤ 256 }
    requires views { AllByRecursion IsView views.items }
    ensures value { IfOk result (λ v. join_answer (form_of form) views.items ≡ Ok v) }
    ensures err { IfErr result (λ e. e ≢ join_error.Memory → join_answer (form_of form) views.items ≡ Err e) }
    ensures view { IfOk result IsView }
{
    match form {
        JoinForm::Overlay => overlay(alloc, views),
        JoinForm::Concat { axis } => concat(alloc, views, axis),
        JoinForm::Stack { axis } => stack(alloc, views, axis),
    }
}

// Copies of the views of all names, or the answer to the first that has none.
fn all_named(alloc: Global, names: &Names, layers: &[Name]) -> Result<Vec<View>, Body>
    requires { AreViews (get_by_text names.now) }
    ensures value { IfOk result (λ vs. (next : List ViewOf → Asked)
        → only_named (get_by_text names.now) layers.now next ≡ next vs.items) }
    ensures count { IfOk result (λ vs. length vs.items ≡ length layers.now) }
    ensures each { IfOk result (λ vs. AllByRecursion IsView vs.items) }
    ensures err { IfErr result (λ b. (next : List ViewOf → Asked)
        → IsAnswerTo (only_named (get_by_text names.now) layers.now next) b) }
{
    let mut views = Vec::new(alloc);
    for layer in layers {
        match push_named(alloc, names, layer.items(), &mut views) {
            Ok(()) => {}
            Err(body) => return Err(body),
        }
    }
    Ok(views)
}

fn push_named(alloc: Global, names: &Names, name: &str, views: &mut Vec<View>) -> Result<(), Body>
    ensures pushed { OnOk result ((v : ViewOf) × (get_by_text names.now name.now ≡ Some v)
        × (views.new.items ≡ views.old.items ++ v ∷ [])) }
    ensures err { IfErr result (λ b. (next : ViewOf → Asked)
        → IsAnswerTo (one_named name.now (get_by_text names.now name.now) next) b) }
{
    match named(alloc, names, name) {
        Ok(view) => pushed(views, view),
        Err(body) => Err(body),
    }
}

fn pushed(views: &mut Vec<View>, view: View) -> Result<(), Body>
    ensures ok { OnOk result (views.new.items ≡ views.old.items ++ view ∷ []) }
    ensures err { IfErr result (λ b. b ≡ Body.Memory) }
{
    match views.push(view) {
        Ok(()) => Ok(()),
        Err(_) => Err(Body::Memory),
    }
}
