use cast_driver::{Chain, Index};
use std::marker::Model;

/// The array in which a cell of a view lies, its index vector there, and the casts between, the one next to the array
/// first. No number of the index vector is below 0.
#[derive(Debug, Drop)]
pub struct Target {
    pub array: u64,
    pub index: Index,
    pub chain: Chain,
}

impl Model for Target {
    ghost use Rattle.std.specs.Prelude.{◌≤ℤ◌, pos, map, unsigned_abs};
    ghost use Rattle.std.specs.List.{All};
    ghost use Rattle.cast_driver.specs.Chain.{AreJoined};
    ghost use Rattle.stack_driver.specs.Targets as targets;

    ghost Value = { targets.Target };

    ghost view = { λ t. record {
      cell = record { array = t.array; index = map unsigned_abs t.index };
      casts = t.chain;
    } };

    ghost invariant = { λ t. All (λ x. pos 0 ≤ℤ x) t.index × AreJoined t.chain };
}
