ghost use Rattle.std.specs.Prelude.{◌≡◌, ◌≢◌, Ok, Err, IfOk, IfErr, option_map};
ghost use Rattle.serde_json.specs.View.{view};
ghost use Rattle.meta_forms.specs.declared.error.MetaError.{MetaError};
ghost use Rattle.want_forms.specs.Wants.{want_of, named_dtype};

use crate::n5::{n5_dtype, n5_want};
use crate::zarr::{zarr_dtype, zarr_want};
use crate::zarr3::{zarr3_dtype, zarr3_want};
use cells::Dtype;
use chunk_forms::Want;
use meta_forms::MetaError;
use serde_json::Value;
use std::alloc::Global;

/// The formats in which a store holds arrays.
#[derive(Clone, Copy, Debug, PartialEq, Eq)]
pub enum Format {
    Zarr,
    N5,
    Zarr3,
}

impl Format {
    /// What is asked of an array of this format by the `metadata` of a Spec, which may be left out, beside a dtype of the
    /// Spec's own.
    ///
    /// # Errors
    /// Those of `zarr_want`, `n5_want` or `zarr3_want`.
    #[tactic(auto, unfolding(crate::specs::Wants::want_of))]
    pub fn want(
        self,
        alloc: Global,
        own: Option<Dtype>,
        metadata: Option<&Value>,
    ) -> Result<Want, MetaError>
        ensures value { IfOk result (λ w. want_of self own (option_map (λ v. view v.now) metadata.entry) ≡ Ok w) }
        ensures causes { IfErr result (λ e. e ≢ MetaError.Memory
            → want_of self own (option_map (λ v. view v.now) metadata.entry) ≡ Err e) }
    {
        match self {
            Format::Zarr => Ok(Want::Zarr {
                want: zarr_want(alloc, own, metadata)?,
            }),
            Format::N5 => Ok(Want::N5 {
                want: n5_want(alloc, own, metadata)?,
            }),
            Format::Zarr3 => Ok(Want::Zarr3 {
                want: zarr3_want(alloc, own, metadata)?,
            }),
        }
    }

    /// The dtype that `metadata` names, where the member that names it is right.
    #[tactic(auto, unfolding(crate::specs::Wants::named_dtype))]
    pub fn named_dtype(self, metadata: &Value) -> Option<Dtype>
        ensures { result ≡ named_dtype self (view metadata.now) }
    {
        match self {
            Format::Zarr => zarr_dtype(metadata),
            Format::N5 => n5_dtype(metadata),
            Format::Zarr3 => zarr3_dtype(metadata),
        }
    }
}
