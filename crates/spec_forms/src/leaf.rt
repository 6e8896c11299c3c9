use cells::{Dense, Name};
use want_forms::{N5Want, Zarr3Want, ZarrWant};

/// An array that a Spec names.
///
/// A stored one lies at a path below a mount; `want` is what is asked of its metadata, and at least one of `may_open` (where it
/// is there) and `may_create` (where it isn't) holds. A given one is made anew of its numbers.
///
/// TensorStore, drivers `zarr`, `n5`, `zarr3` and `array`.
#[derive(Debug, Drop)]
pub enum SpecLeaf {
    Zarr {
        mount: Name,
        path: Name,
        want: ZarrWant,
        may_open: bool,
        may_create: bool,
    },
    N5 {
        mount: Name,
        path: Name,
        want: N5Want,
        may_open: bool,
        may_create: bool,
    },
    Zarr3 {
        mount: Name,
        path: Name,
        want: Zarr3Want,
        may_open: bool,
        may_create: bool,
    },
    Given {
        start: Dense,
    },
}
