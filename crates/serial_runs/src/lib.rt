//! What several sessions over one store promise together: serial transactions.
//!
//! There is no code here. `IsRunOf` says what a run hands back, `IsSerial` what that promises to a reader who knows plain arrays and no
//! chunk, key or byte. The law in `proofs/Laws` leads from the one to the other.
#![tactic(auto)]

pub use history::{Form, Want};
