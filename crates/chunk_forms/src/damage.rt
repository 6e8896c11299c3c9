// Answers of the formats' decoders as answers of one.
ghost use Rattle.std.specs.Prelude.{◌≡◌};
ghost use Rattle.chunk_forms.specs.Answers.{of_zarr, of_n5, of_block};

use crate::form::{Damage, FormError};
use n5_blocks::BlockError;
use zarr_chunks::{ChunkError, Dense};

pub(crate) fn of_zarr(answer: Result<Dense, ChunkError>) -> Result<Dense, FormError>
    ensures { result ≡ of_zarr answer }
{
    match answer {
        Ok(cells) => Ok(cells),
        Err(ChunkError::Memory) => Err(FormError::Memory),
        Err(ChunkError::WrongLength { have, want }) => Err(FormError::Damaged {
            cause: Damage::Zarr {
                cause: ChunkError::WrongLength { have, want },
            },
        }),
    }
}

pub(crate) fn of_n5(answer: Result<Dense, BlockError>) -> Result<Dense, FormError>
    ensures { result ≡ of_n5 answer }
{
    match answer {
        Ok(cells) => Ok(cells),
        Err(cause) => Err(of_block(cause)),
    }
}

fn of_block(cause: BlockError) -> FormError
    ensures { result ≡ of_block cause }
{
    match cause {
        BlockError::Memory => FormError::Memory,
        cause => FormError::Damaged {
            cause: Damage::N5 { cause },
        },
    }
}
