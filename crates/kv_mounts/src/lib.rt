//! Several stores under names, as one store; and a store of files.
//!
//! A key `NAME/REST` goes to the store that is mounted under `NAME`, which has it as `REST`. Other crates rest on one thing:
//! `Mounts` is a `KvStore` whose map is the disjoint union of its stores' maps under their names (`union_of`), and whose
//! counts, prefixes and standing come from those of its stores. `FileKv` keeps its keys as files and tells no contents.
#![tactic(auto)]

mod boxed;
mod failed;
mod file_kv;
mod mount;
mod mounts;
mod paths;
mod shorter;

pub use boxed::BoxedStore;
pub use failed::FinishList;
pub use file_kv::FileKv;
pub use mount::Mount;
pub use mounts::Mounts;
