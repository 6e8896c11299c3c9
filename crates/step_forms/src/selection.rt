// Which dimensions a step selects.
ghost use Rattle.std.specs.Prelude.{◌≡◌, ◌≢◌, ◌≤◌, ◌<◌, pos, [], ◌∷◌, length, IfOk, IfErr, IfSome, option_map, Ok, Err};
ghost use Rattle.std.specs.List.{All, range_with_len};
ghost use Rattle.json_forms.specs.Lists.{all_of};
ghost use Rattle.step_forms.specs.Selection.{from_end, dim_numbered, dim_of_label, is_before, all_before, range_start, range_stop, selected_by, selected_by_all, has_repeat, positions_of, selected_of, HasStep, AreSelectors, AreSelected};
ghost use Rattle.step_forms.specs.declared.selection.SelectError.{SelectError};

use crate::act::{Act, Select, Step};
use index_transform::{Domain, Name};
use std::alloc::{AllocError, Global};

/// Why a step selects no dimensions.
#[derive(Clone, Copy, Debug, PartialEq, Eq)]
pub enum SelectError {
    /// A position or a label is that of no dimension.
    Unknown,
    /// A dimension is selected twice.
    Repeated,
    Memory,
}

impl From<AllocError> for SelectError {
    ghost use Rattle.step_forms.specs.declared.selection.SelectError.TheVariants.{Memory};

    ghost from_gives = { λ _ e. e ≡ Memory };

    fn from(_: AllocError) -> SelectError {
        SelectError::Memory
    }
}

pub fn from_end(rank: usize, x: i64) -> i128
    ensures { result ≡ from_end rank x }
{
    let x = i128::from(x);
    if x < 0 { x + rank as i128 } else { x }
}

pub fn dim_numbered(rank: usize, x: i128) -> Option<usize>
    ensures value { result ≡ dim_numbered rank x }
    ensures bound { IfSome result (λ dim. (dim < rank) × (x ≡ pos dim)) }
{
    if 0 <= x && x < rank as i128 {
        Some(x as usize)
    } else {
        None
    }
}

fn dim_of_label(labels: &[Name], label: &Name) -> Option<usize>
    ensures value { result ≡ dim_of_label labels.now label.now }
    ensures bound { IfSome result (λ dim. dim < length labels.now) }
{
    labels.iter().position(|other| other == label)
}

fn is_before(step: i64, stop: i128, x: i128) -> bool
    ensures { result ≡ is_before step stop x }
{
    if step < 0 { stop < x } else { x < stop }
}

fn range_start(rank: usize, step: i64, start: Option<i64>) -> i128
    ensures { result ≡ range_start rank step start }
{
    match start {
        Some(x) => from_end(rank, x),
        None if step < 0 => rank as i128 - 1,
        None => 0,
    }
}

fn range_stop(rank: usize, step: i64, stop: Option<i64>) -> i128
    ensures { result ≡ range_stop rank step stop }
{
    match stop {
        Some(x) => from_end(rank, x),
        None if step < 0 => -1,
        None => rank as i128,
    }
}

// The dimensions at the positions of a range, which ends at the first that is unknown.
fn dims_before(
    alloc: Global,
    rank: usize,
    step: i64,
    stop: i128,
    start: i128,
) -> Result<Option<Vec<usize>>, AllocError>
    requires { step ≢ pos 0 }
    ensures value { IfOk result (λ o. option_map (λ v.
        v.items) o ≡ all_of (dim_numbered rank) (all_before step stop start)) }
    ensures bound { IfOk result (λ o. IfSome o (λ v. All (λ dim. dim < rank) v.items)) }
{
    let mut dims = Vec::new(alloc);
    let mut x = start;
    while is_before(step, stop, x) {
        let Some(dim) = dim_numbered(rank, x) else {
            return Ok(None);
        };
        dims.push(dim)?;
        x += i128::from(step);
    }
    Ok(Some(dims))
}

fn one(alloc: Global, dim: usize) -> Result<Vec<usize>, AllocError>
    ensures { IfOk result (λ v. v.items ≡ dim ∷ []) }
{
    Vec::from_slice(alloc, &[dim])
}

fn only(alloc: Global, found: Option<usize>) -> Result<Option<Vec<usize>>, AllocError>
    ensures { IfOk result (λ o. option_map (λ v. v.items) o ≡ option_map (λ dim. dim ∷ []) found) }
{
    match found {
        Some(dim) => Ok(Some(one(alloc, dim)?)),
        None => Ok(None),
    }
}

fn selected_by(
    alloc: Global,
    rank: usize,
    labels: &[Name],
    selector: &Select,
) -> Result<Option<Vec<usize>>, AllocError>
    requires few { length labels.now ≤ rank }
    requires steps { HasStep selector.now }
    ensures value { IfOk result (λ o. option_map (λ v. v.items) o ≡ selected_by rank labels.now selector.now) }
    ensures bound { IfOk result (λ o. IfSome o (λ v. All (λ dim. dim < rank) v.items)) }
{
    match selector {
        Select::Position { number } => only(alloc, dim_numbered(rank, from_end(rank, *number))),
        Select::Label { label } => only(alloc, dim_of_label(labels, label)),
        Select::Range { start, stop, step } => {
            let step = *step;
            let start = range_start(rank, step, *start);
            dims_before(alloc, rank, step, range_stop(rank, step, *stop), start)
        }
    }
}

fn selected_by_all(
    alloc: Global,
    rank: usize,
    labels: &[Name],
    selectors: &[Select],
) -> Result<Option<Vec<usize>>, AllocError>
    requires few { length labels.now ≤ rank }
    requires steps { All HasStep selectors.now }
    ensures value { IfOk result (λ o. option_map (λ v. v.items) o ≡ selected_by_all rank labels.now selectors.now) }
    ensures bound { IfOk result (λ o. IfSome o (λ v. All (λ dim. dim < rank) v.items)) }
{
    let mut dims = Vec::new(alloc);
    for selector in selectors {
        let Some(more) = selected_by(alloc, rank, labels, selector)? else {
            return Ok(None);
        };
        dims.extend_from_slice(&more)?;
    }
    Ok(Some(dims))
}

/// Whether a dimension comes twice.
pub fn has_repeat(alloc: Global, rank: usize, dims: &[usize]) -> Result<bool, AllocError>
    requires { All (λ dim. dim < rank) dims.now }
    ensures { IfOk result (λ b. b ≡ has_repeat dims.now) }
{
    let mut marks = vec![in alloc; false; rank]?;
    let seen = marks.as_mut_slice();
    let mut k = dims.len();
    while k > 0 {
        k -= 1;
        let dim = dims[k];
        if seen[dim] {
            return Ok(true);
        }
        seen[dim] = true;
    }
    Ok(false)
}

fn positions_of(step: &Step, rank: usize) -> usize
    requires few { rank ≤ 32 }
    ensures value { result ≡ positions_of step.now rank }
    ensures bound { rank ≤ result }
{
    if matches!(&step.act, Act::Newaxis) {
        rank + step.dims.items().len()
    } else {
        rank
    }
}

/// The dimensions that a step selects, in its order. Work is linear in the number of selectors.
///
/// # Errors
///
/// The first that holds:
/// - `Unknown` where any selector has a position or a label of no dimension.
/// - `Repeated` where a dimension is selected twice.
/// - `Memory`, which may come before another is seen.
///
/// TensorStore, "Index space", "Dimension expressions".
pub fn selected(alloc: Global, step: &Step, domain: &Domain) -> Result<Vec<usize>, SelectError>
    requires few { length domain.now.dims ≤ 32 }
    requires same { length domain.now.labels ≡ length domain.now.dims }
    requires selectors { AreSelectors step.now }
    ensures ok { IfOk result (λ v. selected_of step.now domain.now ≡ Ok v.items) }
    ensures err { IfErr result (λ e. e ≢ SelectError.Memory → selected_of step.now domain.now ≡ Err e) }
    ensures selected { IfOk result (λ v. AreSelected step.now.act (length domain.now.dims) v.items) }
{
    let rank = domain.dims.items().len();
    if step.all {
        return Ok(all_dims(alloc, rank)?);
    }
    let positions = positions_of(step, rank);
    let labels = domain.labels.items();
    let Some(dims) = selected_by_all(alloc, positions, labels, step.dims.items())? else {
        return Err(SelectError::Unknown);
    };
    if has_repeat(alloc, positions, &dims)? {
        return Err(SelectError::Repeated);
    }
    Ok(dims)
}

#[tactic(auto, using(crate::proofs::Ranges::positions_more))]
fn all_dims(alloc: Global, rank: usize) -> Result<Vec<usize>, AllocError>
    ensures value { IfOk result (λ v. v.items ≡ range_with_len 0 rank) }
    ensures bound { IfOk result (λ v. All (λ dim. dim < rank) v.items) }
{
    let mut dims = Vec::with_capacity(alloc, rank)?;
    for dim in 0..rank {
        dims.push(dim)?;
    }
    Ok(dims)
}
