/// A strided run of pairs of a view's cells and a chunk's: pair `k`, for `k` below `len`, is the view's place
/// `view + view_step * k` and the chunk's place `chunk + chunk_step * k`.
#[derive(Clone, Copy, Debug, PartialEq, Eq)]
pub struct Run {
    pub view: u32,
    pub view_step: u32,
    pub chunk: u32,
    pub chunk_step: i64,
    pub len: u32,
}
