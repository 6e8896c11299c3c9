// Where metadata differs from what is asked.
ghost use Rattle.std.specs.Prelude.{◌≡◌, nat_eq, not, option_map, unwrap_or};
ghost use Rattle.std.specs.Str.{bytes_eq};
ghost use Rattle.chunk_forms.specs.Wants.{asks_other, same_dtype, same_order, same_flag, asks_other_order, zarr_mismatch, zarr_mismatch_behind, n5_mismatch, zarr3_mismatch, mismatch_of};

use crate::form::{Form, Want};
use n5_blocks::{N5Meta, N5Want};
use zarr_chunks::{Dtype, Order, Sizes, ZarrMeta, ZarrWant};
use zarr3_chunks::{Zarr3Meta, Zarr3Want};

/// The name of the first member in which an array of this form and shape differs from what is asked: `driver`, `dtype`, then
/// Zarr's `shape`, `chunks`, `order`, `fill_value`, `dimension_separator`, N5's `dimensions`, `blockSize`, and those of version
/// 3, `shape`, `chunk_grid`, `fill_value`, `codecs`, `chunk_key_encoding`. A fill that is null equals 0.
pub fn mismatch(want: &Want, form: &Form, shape: &[u64]) -> Option<&'static str>
    ensures { option_map (λ member. member.now) result ≡ mismatch_of want.now form.now shape.now }
{
    match want {
        Want::Zarr { want } => match form {
            Form::Zarr { meta } => zarr_mismatch(want, meta, shape),
            _ => Some("driver"),
        },
        Want::N5 { want } => match form {
            Form::N5 { meta } => n5_mismatch(want, meta, shape),
            _ => Some("driver"),
        },
        Want::Zarr3 { want } => match form {
            Form::Zarr3 { meta } => zarr3_mismatch(want, meta, shape),
            _ => Some("driver"),
        },
    }
}

fn zarr_mismatch(want: &ZarrWant, meta: &ZarrMeta, shape: &[u64]) -> Option<&'static str>
    ensures { option_map (λ member. member.now) result ≡ zarr_mismatch want.now meta.now shape.now }
{
    if asks_other_dtype(want.dtype, meta.dtype) {
        return Some("dtype");
    }
    if asks_other_order(meta.dtype, want.big, meta.big) {
        return Some("dtype");
    }
    if asks_other_sizes(&want.shape, shape) {
        return Some("shape");
    }
    if asks_other_sizes(&want.chunks, meta.chunks.items()) {
        return Some("chunks");
    }
    zarr_mismatch_behind(want.order, want.fill, want.slash, meta)
}

fn zarr_mismatch_behind(
    order: Option<Order>,
    fill: Option<Option<u64>>,
    slash: Option<bool>,
    meta: &ZarrMeta,
) -> Option<&'static str>
    ensures { option_map (λ member. member.now) result ≡ zarr_mismatch_behind order fill slash meta.now }
{
    if asks_other_cells(order, meta.order) {
        return Some("order");
    }
    if asks_other_word(asked_fill(fill), meta.fill.unwrap_or(0)) {
        return Some("fill_value");
    }
    if asks_other_flag(slash, meta.slash) {
        return Some("dimension_separator");
    }
    None
}

fn n5_mismatch(want: &N5Want, meta: &N5Meta, shape: &[u64]) -> Option<&'static str>
    ensures { option_map (λ member. member.now) result ≡ n5_mismatch want.now meta.now shape.now }
{
    if asks_other_dtype(want.dtype, meta.dtype) {
        return Some("dtype");
    }
    if asks_other_sizes(&want.dimensions, shape) {
        return Some("dimensions");
    }
    if asks_other_sizes(&want.block, meta.block.items()) {
        return Some("blockSize");
    }
    None
}

fn zarr3_mismatch(want: &Zarr3Want, meta: &Zarr3Meta, shape: &[u64]) -> Option<&'static str>
    ensures { option_map (λ member. member.now) result ≡ zarr3_mismatch want.now meta.now shape.now }
{
    if asks_other_dtype(want.dtype, meta.dtype) {
        return Some("dtype");
    }
    if asks_other_sizes(&want.shape, shape) {
        return Some("shape");
    }
    if asks_other_sizes(&want.chunks, meta.chunks.items()) {
        return Some("chunk_grid");
    }
    if asks_other_word(want.fill, meta.fill) {
        return Some("fill_value");
    }
    if asks_other_order(meta.dtype, want.big, meta.big) {
        return Some("codecs");
    }
    if asks_other_flag(want.dot, meta.dot) {
        return Some("chunk_key_encoding");
    }
    None
}

fn asks_other_dtype(asked: Option<Dtype>, dtype: Dtype) -> bool
    ensures { result ≡ asks_other same_dtype asked dtype }
{
    match asked {
        Some(asked) => asked.name() != dtype.name(),
        None => false,
    }
}

fn asks_other_order(dtype: Dtype, asked: Option<bool>, big: bool) -> bool
    ensures { result ≡ asks_other_order dtype asked big }
{
    if dtype.byte_count() == 1 {
        return false;
    }
    asks_other_flag(asked, big)
}

fn asks_other_flag(asked: Option<bool>, flag: bool) -> bool
    ensures { result ≡ asks_other same_flag asked flag }
{
    match asked {
        Some(asked) => asked != flag,
        None => false,
    }
}

fn asks_other_cells(asked: Option<Order>, order: Order) -> bool
    ensures { result ≡ asks_other same_order asked order }
{
    match asked {
        Some(Order::C) => matches!(order, Order::F),
        Some(Order::F) => matches!(order, Order::C),
        None => false,
    }
}

fn asks_other_word(asked: Option<u64>, word: u64) -> bool
    ensures { result ≡ asks_other nat_eq asked word }
{
    match asked {
        Some(asked) => asked != word,
        None => false,
    }
}

// The word of a fill that is asked; null is 0.
fn asked_fill(fill: Option<Option<u64>>) -> Option<u64>
    ensures { result ≡ option_map (λ f. unwrap_or f 0) fill }
{
    match fill {
        Some(Some(word)) => Some(word),
        Some(None) => Some(0),
        None => None,
    }
}

fn asks_other_sizes(asked: &Option<Sizes>, sizes: &[u64]) -> bool
    ensures { result ≡ asks_other bytes_eq asked.now sizes.now }
{
    match asked {
        Some(asked) => differ(asked.items(), sizes),
        None => false,
    }
}

fn differ(one: &[u64], other: &[u64]) -> bool
    ensures { result ≡ not (bytes_eq one.now other.now) }
{
    one != other
}
