use n5_blocks::{BlockError, N5Meta, N5Want};
use zarr_chunks::{ChunkError, ZarrMeta, ZarrWant};
use zarr3_chunks::{Zarr3Meta, Zarr3Want};

/// How an array's chunks are stored. A local array's chunk is held by the run, not stored.
#[derive(Debug, Drop)]
pub enum Form {
    Zarr { meta: ZarrMeta },
    N5 { meta: N5Meta },
    Zarr3 { meta: Zarr3Meta },
    Local,
}

/// What is asked of an array, and in which form.
#[derive(Debug, Drop)]
pub enum Want {
    Zarr { want: ZarrWant },
    N5 { want: N5Want },
    Zarr3 { want: Zarr3Want },
}

/// Why stored bytes are no chunk. Chunks of both versions of Zarr have the causes of `Zarr`.
#[derive(Clone, Copy, Debug, PartialEq, Eq)]
pub enum Damage {
    Zarr { cause: ChunkError },
    N5 { cause: BlockError },
}

/// Why stored bytes gave no numbers.
#[derive(Clone, Copy, Debug, PartialEq, Eq)]
pub enum FormError {
    /// The bytes are no chunk.
    Damaged { cause: Damage },
    /// An allocation failed.
    Memory,
}
