//! That what is kept of a chunk's words is what a history says of them.
//!
//! There is no code here. `AreVersionsOf` says what is kept right behind a history that began over an empty store, `ArePartVersionsOf` what is
//! kept while the words of its next commit are put. The laws in `proofs/Laws` lead from each event to the next.
#![tactic(auto)]
