//! The top call: words, scripts, sessions on workers over mounts, answers.
//!
//! Others rest on one call, `run`. Its clause `serial` is what the project is for: over one empty store that makes all changes of a commit
//! together, the transactions of all sessions are serial, in the order of the numbers that their commits print. `new_mounts` makes the mounts
//! of a program, `mounts_by` those that its words ask for.
#![tactic(auto)]

mod mounts;
mod outcome;
mod store;
mod top;
mod words;
mod writing;

pub use kv_face::{KvStore, MemoryKv};
pub use made_scripts::{Answer, Body, make_scripts, summary};
pub use mounts::new_mounts;
pub use outcome::Outcome;
pub use output_laws::{Event, Kind, Mode, Op, Ops};
pub use script_streams::{
    FileScripts, MemoryScripts, MemorySink, Scripts, Sink, StdoutSink, are_all_ok, has_memory,
    read_scripts, write_logs,
};
pub use session_workers::{BoxedStore, Gate, Mount, OpenGate};
pub use store::Store;
pub use top::run;
pub use words::mounts_by;
