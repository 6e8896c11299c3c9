//! What a seat of the table knows. No value of these types is made: they are the data of proofs.
use std::collections::LinkedList;

/// What the pass of one number has seen, and which entries are its own.
pub struct Claim<E> {
    pub number: u32,
    pub seen: LinkedList<E>,
    pub mine: LinkedList<E>,
}

/// What one seat knows. A seat with no fixed value knows nothing; else it has a number of its own and `further` ones.
pub struct SeatView<E, F> {
    pub fixed: Option<F>,
    pub holds: bool,
    pub own: Claim<E>,
    pub further: LinkedList<Claim<E>>,
}
