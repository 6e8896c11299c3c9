/// What stands in a downsampled cell: the number at the multiple of the factors, or the least or the greatest of the group.
///
/// TensorStore, driver `downsample`, methods `stride`, `min` and `max`.
#[derive(Clone, Copy, Debug, PartialEq, Eq)]
pub enum Method {
    Stride,
    Min,
    Max,
}
