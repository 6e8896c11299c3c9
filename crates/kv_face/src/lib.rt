//! Key-value stores, scripts and sinks: what every one of them promises, and each of them in memory.
//!
//! Crates above are written for any `KvStore`, `Scripts` and `Sink`, and rest on these traits alone. A store is a map from
//! keys to bytes, which it may tell or not, a count of faults, and a list of changes that is applied whole or not at all.
//! What lies in memory tells everything and fails exactly at the calls that a test names.
#![tactic(auto)]

mod calls;
mod change;
mod error;
mod memory;
mod reading;
mod scripts;
mod sink;
mod store;
mod streams;
mod table;

pub use calls::{CountedCalls, one_more};
pub use change::{Change, copy_changes};
pub use error::{Failed, KvError};
pub use memory::MemoryKv;
pub use reading::{ReadError, read_script};
pub use scripts::MemoryScripts;
pub use sink::MemorySink;
pub use store::KvStore;
pub use streams::{Scripts, Sink, write_all};
