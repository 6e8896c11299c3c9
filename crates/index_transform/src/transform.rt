ghost use Rattle.std.specs.Prelude.{◌≡◌, IsTrue, length, map};
ghost use Rattle.std.specs.List.{list_all};
ghost use Rattle.index_transform.specs.Maps.{is_map, plain_map};
ghost use Rattle.index_intervals.specs.Bounds.{are_bounds};
ghost use Rattle.index_transform.specs.Transforms.{on_dims};

use crate::domain::{Domain, are_labels, look_at_all};
use crate::error::TransformError;
use crate::map::{OutMap, first_bad_map, ranks_fit};
use cells::List;
use index_intervals::Interval;
use std::marker::Model;
use std::mem;

/// A domain, and for each output dimension how its number follows from an index vector of the domain.
///
/// TensorStore, "Index space", "Index transform".
#[derive(Debug, Drop)]
pub struct Transform {
    domain: Domain,
    maps: List<OutMap>,
}

impl Model for Transform {
    ghost use Rattle.index_transform.specs.Transforms.{DomainAndMaps, IsTransform};

    ghost Value = { DomainAndMaps };

    ghost view = { λ a. record { domain = a.domain; maps = a.maps } };

    ghost invariant = { λ a. IsTransform (record { domain = a.domain; maps = a.maps }) };
}

impl Transform {
    ghost use Rattle.index_transform.specs.Transforms.{IsTransform, checked};

    /// The transform of a domain and one map per output. A map with a stride of 0 becomes a constant one.
    ///
    /// # Errors
    ///
    /// The first that holds:
    /// - `BadRank` where there are more than 32 dimensions or outputs, or not one label per dimension.
    /// - `BadLabel` where a label has more than 64 bytes, or one that isn't empty comes twice.
    /// - `BadMap` with the first output whose map doesn't go from the dimensions: its dimension is none of them, a size
    ///   of its index array is neither 1 nor that of a dimension with explicit finite bounds, or the array hasn't one
    ///   finite index per cell, or has more than 2^22.
    pub fn new(domain: Domain, maps: Vec<OutMap>) -> Result<Transform, TransformError>
        ensures { result ≡ checked domain maps.items }
    {
        if !ranks_fit(&domain, &maps) {
            return Err(TransformError::BadRank);
        }
        if !are_labels(domain.labels.items()) {
            return Err(TransformError::BadLabel);
        }
        look_at_all(domain.dims.items());
        match first_bad_map(&domain, &maps) {
            Some(output) => Err(TransformError::BadMap {
                output: output as u32,
            }),
            None => Ok(Transform {
                domain,
                maps: List::wrap(plain_maps(maps)),
            }),
        }
    }

    /// The domain.
    pub fn domain(&self) -> &Domain
        ensures value { result.now ≡ self.now.domain }
        ensures well_formed { IsTransform self.now }
    {
        &self.domain
    }

    /// The maps, one per output.
    pub fn maps(&self) -> &[OutMap]
        ensures value { result.now ≡ self.now.maps }
        ensures well_formed { IsTransform self.now }
    {
        self.maps.items()
    }

    /// The transform of a domain and maps that keep the rules, without a check.
    pub fn of(domain: Domain, maps: Vec<OutMap>) -> Transform
        requires { IsTransform (record { domain = domain; maps = maps.items }) }
        ensures { result ≡ record { domain = domain; maps = maps.items } }
    {
        Transform {
            domain,
            maps: List::wrap(maps),
        }
    }

    /// Puts other dimensions in place of the domain's.
    pub fn set_dims(&mut self, dims: Vec<Interval>)
        requires rank { length dims.items ≡ length self.old.domain.dims }
        requires fit { IsTrue (list_all (is_map dims.items) self.old.maps) }
        requires bounds { IsTrue (list_all are_bounds dims.items) }
        ensures { self.new ≡ on_dims self.old dims.items }
    {
        self.domain.dims = List::wrap(dims);
    }
}

// The maps with strides of 0 made constants.
fn plain_maps(mut maps: Vec<OutMap>) -> Vec<OutMap>
    ensures { result.items ≡ map plain_map maps.items }
{
    for map in maps.iter_mut() {
        let taken = mem::replace(map, OutMap::Constant { offset: 0 });
        *map = taken.plain();
    }
    maps
}
