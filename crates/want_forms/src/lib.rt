//! What the `metadata` of a Spec asks of an array, in each of the three formats.
//!
//! The members of `metadata` are those of the stored metadata, each of which may be left out; how a member is judged stands in
//! the format's own crate. `spec_open` rests on three definitions: `zarr_want`, `n5_want` and `zarr3_want` are what is asked,
//! or the first fault in byte order, in which an unknown member is a fault at its place.
#![tactic(auto)]

mod asking;
mod format;
mod n5;
mod sizes;
mod zarr;
mod zarr3;

pub use asking::{comes_before, word_asked};
pub use chunk_forms::{N5Want, Want, ZarrWant, default_chunks};
pub use format::Format;
pub use meta_forms::MetaError;
pub use n5::{n5_dtype, n5_want};
pub use zarr::{zarr_dtype, zarr_want};
pub use zarr3::{zarr3_dtype, zarr3_want};
pub use zarr3_chunks::Zarr3Want;
