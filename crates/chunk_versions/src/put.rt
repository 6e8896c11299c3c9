/// A word that was put at a place.
#[derive(Clone, Copy, Debug)]
pub struct Put {
    pub word: u64,
    /// By which of the touches, counted from 0.
    pub touch: u32,
    /// The put before it at its place, counted from 1; 0 where there is none.
    pub before: u32,
}
