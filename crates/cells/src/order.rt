/// The order in which a shape's cells are numbered.
///
/// Zarr version 2, "Arrays", member `order`.
#[derive(Clone, Copy, Debug, PartialEq, Eq)]
pub enum Order {
    /// The last index changes fastest.
    C,
    /// The first index changes fastest.
    F,
}
