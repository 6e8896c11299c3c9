// What is asked of an array that is opened.
use crate::fault::Fault;
use crate::reading::member;
use chunk_forms::Want;
use meta_forms::MetaError;
use n5_blocks::N5Want;
use serde_json::Value;
use std::alloc::Global;
use want_forms::{n5_want, zarr_want, zarr3_want};
use zarr_chunks::ZarrWant;
use zarr3_chunks::Zarr3Want;

/// What is asked, by the format whose metadata the line has: `zarr`, `n5` or `zarr3`.
pub fn want(alloc: Global, v: &Value) -> Result<Want, Fault> {
    if let Some(metadata) = v.get("zarr") {
        return of_zarr(zarr_want(alloc, None, Some(metadata)));
    }
    if let Some(metadata) = v.get("n5") {
        return of_n5(n5_want(alloc, None, Some(metadata)));
    }
    of_zarr3(zarr3_want(alloc, None, Some(member(v, "zarr3")?)))
}

fn fault(error: MetaError) -> Fault {
    match error {
        MetaError::Memory => Fault::Memory,
        _ => Fault::Line,
    }
}

fn of_zarr(answer: Result<ZarrWant, MetaError>) -> Result<Want, Fault> {
    match answer {
        Ok(want) => Ok(Want::Zarr { want }),
        Err(error) => Err(fault(error)),
    }
}

fn of_n5(answer: Result<N5Want, MetaError>) -> Result<Want, Fault> {
    match answer {
        Ok(want) => Ok(Want::N5 { want }),
        Err(error) => Err(fault(error)),
    }
}

fn of_zarr3(answer: Result<Zarr3Want, MetaError>) -> Result<Want, Fault> {
    match answer {
        Ok(want) => Ok(Want::Zarr3 { want }),
        Err(error) => Err(fault(error)),
    }
}
