use cells::{Dtype, Index, List, Name, Sizes, Words};
use dim_changes::Cause;
use index_transform::{Domain, Transform};
use layer_join::JoinError;
use spec_open::BuildCause;
use transform_composition::ComposeError;

/// What a line of a script is answered.
#[derive(Debug, Drop)]
pub struct Answer {
    /// The line's number, from 1 on.
    pub line: u64,
    pub body: Body,
}

/// Why stored bytes are no metadata: no JSON object, or the first member at fault.
#[derive(Debug, PartialEq, Eq, Drop)]
pub enum MetaWhy {
    Json,
    Member { name: Name },
    Unsupported { name: Name },
}

/// Why stored bytes are no chunk: the number of bytes, or what stands in the header of a block.
#[derive(Clone, Copy, Debug, PartialEq, Eq)]
pub enum Why {
    Length { have: u64, want: u64 },
    Mode { have: u16 },
    Rank { have: u16 },
    Size { dim: u32, have: u32 },
}

/// What is answered. `events` are the numbers of the arrays that a line opened, `commit` and `done` those of what it committed.
#[derive(Debug, Drop)]
pub enum Body {
    Opened {
        name: Name,
        dtype: Dtype,
        domain: Domain,
        events: List<u64>,
    },
    Viewed {
        name: Name,
        dtype: Dtype,
        transform: Transform,
    },
    /// A word for each cell of the shape, in C order.
    Values {
        origin: Index,
        shape: Sizes,
        dtype: Dtype,
        words: Words,
    },
    Staged {
        cells: u64,
    },
    Written {
        cells: u64,
        events: List<u64>,
    },
    Begun,
    Committed {
        events: List<u64>,
    },
    Aborted,
    Resized {
        event: u64,
    },
    Resolved {
        name: Name,
        dtype: Dtype,
        transform: Transform,
    },
    BadLine {
        text: Name,
    },
    /// With events where the Spec's form is right, and it names too little to make an array.
    BadSpec {
        path: Name,
        events: Option<List<u64>>,
    },
    Unsupported {
        path: Name,
    },
    BadStep {
        step: u32,
    },
    UnknownName {
        name: Name,
    },
    InTransaction,
    NoTransaction,
    UnknownDim {
        step: u32,
    },
    RepeatedDim {
        step: u32,
    },
    RefusedStep {
        step: u32,
        cause: Cause,
    },
    RefusedView {
        cause: ComposeError,
    },
    RefusedJoin {
        cause: JoinError,
    },
    RefusedSpec {
        path: Name,
        cause: BuildCause,
        events: List<u64>,
    },
    NotFound {
        at: u64,
        path: Name,
        events: List<u64>,
    },
    Exists {
        at: u64,
        path: Name,
        events: List<u64>,
    },
    PathTaken {
        at: u64,
        path: Name,
        events: List<u64>,
    },
    Mismatch {
        at: u64,
        member: Name,
        path: Name,
        events: List<u64>,
    },
    BadMeta {
        key: Name,
        why: MetaWhy,
        events: List<u64>,
    },
    Unbounded {
        dim: u32,
    },
    TooMany {
        dim: u32,
    },
    OutOfRange {
        cell: Index,
        dim: u32,
    },
    Uncovered {
        cell: Index,
    },
    /// The place in nested lists, the outermost first.
    BadValues {
        path: List<u64>,
    },
    Conflict {
        key: Name,
        read: u64,
        now: u64,
    },
    Shrunk {
        key: Name,
        now: u64,
    },
    NotAtomic {
        keys: u64,
    },
    NotArray,
    TooManyChunks {
        at: u64,
    },
    /// With events where the line is an `open`.
    StoreFailed {
        event: u64,
        done: List<u64>,
        events: Option<List<u64>>,
    },
    Damaged {
        key: Name,
        why: Why,
    },
    Memory,
}
