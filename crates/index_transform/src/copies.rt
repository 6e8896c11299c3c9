ghost use Rattle.std.specs.Prelude.{◌≡◌, ◌≤◌, IfOk, IsTrue, length};
ghost use Rattle.index_intervals.specs.Bounds.{is_ordered};
ghost use Rattle.index_transform.specs.Identity.{identity_maps};

use crate::domain::{Domain, look_at_all};
use crate::map::OutMap;
use crate::transform::Transform;
use cells::{Index, Sizes};
use index_intervals::Interval;
use std::alloc::{AllocError, Global};

impl Transform {
    ghost use Rattle.index_transform.specs.Transforms.{IsDomain};
    ghost use Rattle.index_transform.specs.Identity.{identity_over};

    /// A transform equal to this one.
    pub fn copy(&self, alloc: Global) -> Result<Transform, AllocError>
        ensures { IfOk result (λ copy. copy ≡ self.now) }
    {
        let maps = copied_maps(alloc, self.maps())?;
        Ok(Transform::of(self.domain().copy(alloc)?, maps))
    }

    /// The identity over a domain: each output is the index along its dimension.
    pub fn identity(alloc: Global, domain: Domain) -> Result<Transform, AllocError>
        requires { IsDomain domain }
        ensures { IfOk result (λ t. t ≡ identity_over domain) }
    {
        let maps = identity_maps(alloc, domain.dims.items())?;
        look_at_all(domain.dims.items());
        Ok(Transform::of(domain, maps))
    }
}

// Each index as an output.
fn identity_maps(alloc: Global, dims: &[Interval]) -> Result<Vec<OutMap>, AllocError>
    requires { length dims.now ≤ 32 }
    ensures { IfOk result (λ maps. maps.items ≡ identity_maps 0 dims.now) }
{
    let mut maps = Vec::with_capacity(alloc, dims.len())?;
    for dim in 0..dims.len() {
        maps.push(OutMap::Strided {
            offset: 0,
            stride: 1,
            dim: dim as u32,
        })?;
    }
    Ok(maps)
}

/// A map equal to another.
pub fn copied_map(alloc: Global, map: &OutMap) -> Result<OutMap, AllocError>
    ensures { IfOk result (λ copy. copy ≡ map.now) }
{
    match map {
        OutMap::Constant { offset } => Ok(OutMap::Constant { offset: *offset }),
        OutMap::Strided {
            offset,
            stride,
            dim,
        } => Ok(OutMap::Strided {
            offset: *offset,
            stride: *stride,
            dim: *dim,
        }),
        OutMap::Indexed {
            offset,
            stride,
            sizes,
            entries,
        } => Ok(OutMap::Indexed {
            offset: *offset,
            stride: *stride,
            sizes: Sizes::wrap(Vec::from_slice(alloc, sizes.items())?),
            entries: Index::wrap(Vec::from_slice(alloc, entries.items())?),
        }),
    }
}

/// Maps equal to others.
pub fn copied_maps(alloc: Global, maps: &[OutMap]) -> Result<Vec<OutMap>, AllocError>
    ensures { IfOk result (λ copies. copies.items ≡ maps.now) }
{
    let mut copies = Vec::with_capacity(alloc, maps.len())?;
    for map in maps {
        copies.push(copied_map(alloc, map)?)?;
    }
    Ok(copies)
}

/// An interval equal to another.
pub fn copied_interval(dim: &Interval) -> Interval
    ensures value { result ≡ dim.now }
    ensures ordered { IsTrue (is_ordered dim.now) }
{
    Interval {
        lo: dim.lo,
        hi: dim.hi,
        ..*dim
    }
}
