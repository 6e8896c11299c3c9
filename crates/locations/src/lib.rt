//! Where arrays lie: a table of locations, each with the number of the array that lies there.
//!
//! A location is `MOUNT/PATH`. One lies below another where it goes on behind a `/`; two clash where one lies below the other. A
//! look-up tells the least location that clashes, else the array at the location itself, in time logarithmic in the number of
//! locations and linear in the text.
#![tactic(auto)]

mod table;

pub use table::{Found, Locations};
