// Metadata from stored bytes.
ghost use Rattle.std.specs.Prelude.{◌≡◌, ◌≢◌, IfOk, IfErr, true};
ghost use Rattle.history.specs.declared.Form.{Form};
ghost use Rattle.history.specs.Metadata.{SpellsMetadata, IsMetadata};
ghost use Rattle.history.specs.Wants.{is_asked_form};
ghost use Rattle.array_homes.specs.declared.read.MetaCause.{MetaCause};
ghost use Rattle.array_homes.specs.declared.read.FormReadError.TheVariants as error;
ghost use Rattle.array_homes.specs.Answers.{of_zarr, of_n5, of_zarr3};
ghost use Rattle.array_homes.specs.Opening.{IsBadBy};

use history::{Form, Want};
use meta_forms::MetaError;
use n5_blocks::N5Meta;
use std::alloc::Global;
use zarr_chunks::ZarrMeta;
use zarr3_chunks::Zarr3Meta;

/// Why stored bytes are no metadata. Both versions of Zarr have the causes of `Zarr`.
#[derive(Debug, Drop)]
pub enum MetaCause {
    Zarr { cause: MetaError },
    N5 { cause: MetaError },
}

/// Why stored bytes gave no metadata.
#[derive(Debug, Drop)]
pub enum FormReadError {
    /// The bytes are no metadata of what is asked.
    Bad { cause: MetaCause },
    /// An allocation failed.
    Memory,
}

/// The metadata that stored bytes are, in the format that is asked.
///
/// Zarr version 2, "Metadata"; Zarr version 3, "Array metadata"; N5, "attributes.json".
///
/// # Errors
/// `Bad` where the bytes spell no metadata of that format, with the first thing wrong with them. `Memory` where an allocation
/// failed.
pub fn read_form(alloc: Global, want: &Want, bytes: &[u8]) -> Result<Form, FormReadError>
    ensures asked { IfOk result (λ meta. is_asked_form want.now meta ≡ true) }
    ensures spells { IfOk result (λ meta. SpellsMetadata meta bytes.now) }
    ensures valid { IfOk result (λ meta. IsMetadata meta) }
    ensures causes { IfErr result (λ e. e ≢ error.Memory → (cause : MetaCause) × (e ≡ error.Bad cause)
        × IsBadBy want.now bytes.now cause) }
    ensures none { IfErr result (λ e. e ≢ error.Memory → (meta : Form) → is_asked_form want.now meta ≡ true
        → ¬ SpellsMetadata meta bytes.now) }
{
    match want {
        Want::Zarr { .. } => of_zarr(zarr_chunks::read_meta(alloc, bytes)),
        Want::N5 { .. } => of_n5(n5_blocks::read_meta(alloc, bytes)),
        Want::Zarr3 { .. } => of_zarr3(zarr3_chunks::read_meta(alloc, bytes)),
    }
}

fn of_zarr(answer: Result<ZarrMeta, MetaError>) -> Result<Form, FormReadError>
    ensures { result ≡ of_zarr answer }
{
    match answer {
        Ok(meta) => Ok(Form::Zarr { meta }),
        Err(MetaError::Memory) => Err(FormReadError::Memory),
        Err(cause) => Err(FormReadError::Bad {
            cause: MetaCause::Zarr { cause },
        }),
    }
}

fn of_n5(answer: Result<N5Meta, MetaError>) -> Result<Form, FormReadError>
    ensures { result ≡ of_n5 answer }
{
    match answer {
        Ok(meta) => Ok(Form::N5 { meta }),
        Err(MetaError::Memory) => Err(FormReadError::Memory),
        Err(cause) => Err(FormReadError::Bad {
            cause: MetaCause::N5 { cause },
        }),
    }
}

fn of_zarr3(answer: Result<Zarr3Meta, MetaError>) -> Result<Form, FormReadError>
    ensures { result ≡ of_zarr3 answer }
{
    match answer {
        Ok(meta) => Ok(Form::Zarr3 { meta }),
        Err(MetaError::Memory) => Err(FormReadError::Memory),
        Err(cause) => Err(FormReadError::Bad {
            cause: MetaCause::Zarr { cause },
        }),
    }
}
