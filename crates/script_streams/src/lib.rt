//! Scripts read in, logs written out, and the ends of a real program: files and standard output.
//!
//! Crates above read all scripts with `read_scripts` before anything runs, and write all logs with `write_logs` or
//! `write_logs_beside` behind the last line.
//! They rest on two definitions: `AreScripts` tells which texts were read, and `text_of_logs` what is written, to the byte.
#![tactic(auto)]

mod files;
mod output;
mod reader;
mod reading;
mod rendering;
mod standing;
mod writer;
mod writing;

pub use files::FileScripts;
pub use kv_face::{MemoryScripts, MemorySink, Scripts, Sink};
pub use output::StdoutSink;
pub use reader::Reader;
pub use reading::{Unread, read_scripts};
pub use standing::{are_all_ok, has_memory};
pub use writer::Writer;
pub use writing::{Unwritten, write_logs, write_logs_beside};
