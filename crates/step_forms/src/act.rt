use index_transform::{Index, List, Name};

/// One step: which dimensions it is for, in this order, and what it does with them.
///
/// TensorStore, "Index space", "Dimension expressions".
#[derive(Debug, Drop)]
pub struct Step {
    /// What selects the dimensions; empty where `all` holds.
    pub dims: List<Select>,
    /// Whether all dimensions are selected, in their order.
    pub all: bool,
    pub act: Act,
}

/// What selects dimensions.
#[derive(Debug, Drop)]
pub enum Select {
    /// The dimension at a position; a negative one counts from the end.
    Position {
        number: i64,
    },
    /// The dimension of a label, which isn't empty.
    Label {
        label: Name,
    },
    /// The dimensions at `start`, `start + step` and so on before `stop`. A negative `start` or `stop` has the rank added.
    /// For a positive step the defaults are 0 and the rank, for a negative one the last position and the one before 0.
    Range {
        start: Option<i64>,
        stop: Option<i64>,
        step: i64,
    },
}

/// What a step does with the dimensions that are selected.
#[derive(Debug, Drop)]
pub enum Act {
    /// Gives each a label.
    Label {
        labels: List<Name>,
    },
    /// Moves each so that its lower bound is a number.
    TranslateTo {
        by: PerDim,
    },
    /// Moves each up by a number.
    TranslateBy {
        by: PerDim,
    },
    /// Moves each down by a number.
    TranslateBackwardBy {
        by: PerDim,
    },
    /// Takes of each every so many indices.
    Stride {
        by: PerDim,
    },
    /// Puts each at a position of the result; a negative one counts from the end.
    Transpose {
        targets: Index,
    },
    /// Takes the cells at which all have the same index.
    Diagonal,
    /// Takes one index of each.
    At {
        by: Numbers,
    },
    /// Takes a part of each.
    Slice {
        by: Slices,
    },
    /// Takes these indices of each.
    Oindex {
        arrays: List<Index>,
    },
    /// Takes these indices of all at once.
    Vindex {
        arrays: List<Index>,
    },
    /// Adds dimensions of one cell.
    Newaxis,
    /// Sets the flags of lower and upper bounds, where it says one.
    MarkBoundsImplicit {
        lower: Option<bool>,
        upper: Option<bool>,
    },
}

/// A number for each selected dimension.
#[derive(Debug, Drop)]
pub enum PerDim {
    /// The same for all.
    All { number: i64 },
    /// One for each; a dimension without one stays as it is.
    Each { numbers: List<Option<i64>> },
}

/// An index for each selected dimension.
#[derive(Debug, Drop)]
pub enum Numbers {
    /// The same for all.
    All { number: i64 },
    /// One for each.
    Each { numbers: Index },
}

/// A part for each selected dimension.
#[derive(Debug, Drop)]
pub enum Slices {
    /// The same for all.
    All { part: SlicePart },
    /// One for each.
    Each { parts: List<SlicePart> },
}

/// The indices `start`, `start + step` and so on before `stop`; a bound that is left out is that of the dimension.
#[derive(Clone, Copy, Debug, PartialEq, Eq)]
pub struct SlicePart {
    pub start: Option<i64>,
    pub stop: Option<i64>,
    pub step: i64,
}
