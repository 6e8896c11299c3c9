use cast_driver::Chain;
use cells::Sizes;
use std::marker::Model;

/// What a leaf of a view tells of its cells.
#[derive(Debug, Drop)]
pub struct Lane {
    /// The array's number.
    pub array: u64,
    /// The shape of its chunks, in cells.
    pub chunk: Sizes,
    /// The casts outwards.
    pub casts: Chain,
}

impl Model for Lane {
    ghost use Rattle.cells.specs.Shapes.{IsChunkShape};
    ghost use Rattle.transaction_cells.specs.Lanes.{LaneSeen};

    ghost Value = { LaneSeen };

    ghost view = { λ l. record { array = l.array; chunk = l.chunk; casts = l.casts } };

    ghost invariant = { λ l. IsChunkShape l.chunk };
}
