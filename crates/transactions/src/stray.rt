/// An array of which a read needs a cell outside the shape that the array had when the cell's chunk was read.
#[derive(Clone, Copy, Debug, PartialEq, Eq)]
pub struct Stray {
    pub array: u64,
    /// The number of events at which the chunk was read.
    pub mark: u64,
    /// The number of the event that had given the array its shape, 0 where that was its opening.
    pub resized: u64,
}
