//! Downsampled reads: fewer cells of a finite domain, each with the number at a multiple, or the least or greatest of a group.
//!
//! Crates above rest on `downsampled`, which gives the origin, the shape and the words.
#![tactic(auto)]

mod downsampling;
mod factors;
mod method;
mod outcome;
mod places;
mod sizes;
mod slots;

pub use downsampling::down;
pub use factors::are_factors;
pub use method::Method;
pub use outcome::Down;
