//! The forms in which chunks are stored, behind one name.
//!
//! Crates above rest on the grammar of chunks and of metadata, whatever the form: what bytes spell, what is written, and
//! what is wrong with bytes that are no chunk. `decode_form` and `encode_form` go by that grammar alone. `mismatch` tells
//! what opening compares, and `made` makes what is asked.
#![tactic(auto)]

mod as_asked;
mod copies;
mod damage;
mod decode;
mod differing;
mod encode;
mod form;
mod looks;
mod making;
mod member;

pub use as_asked::made;
pub use decode::decode_form;
pub use differing::mismatch;
pub use encode::encode_form;
pub use form::{Damage, Form, FormError, Want};
pub use making::{default_chunks, is_small};
pub use member::{MadeError, Member};
pub use n5_blocks::{BlockError, N5Meta, N5Want, judged_compression, judged_dtype};
pub use zarr_chunks::{
    ElementType, MetaError, ZarrMeta, ZarrWant, judged_compressor, judged_filters, judged_order,
    judged_separator, judged_type,
};
pub use zarr3_chunks::{Zarr3Meta, Zarr3Want, grid_sizes, judged_codecs, judged_keys, judged_node};
