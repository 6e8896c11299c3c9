// Answers to what the store has: metadata and chunks that can't be read.
ghost use Rattle.std.specs.Prelude.{◌≡◌};
ghost use Rattle.line_answers.specs.Causes.{metadata_body, damage_body, chunk_body, block_body};

use answer_text::{Body, MetaWhy, Why};
use cells::{List, Name};
use chunk_elements::ChunkError;
use history::Damage;
use meta_forms::MetaError;
use n5_blocks::BlockError;

/// The answer to an `open` whose array has such metadata under a key, by the events that the line added.
pub fn bad_metadata(key: Name, cause: MetaError, events: List<u64>) -> Body
    ensures { result ≡ metadata_body key cause events }
{
    match cause {
        MetaError::NotJson => Body::BadMeta {
            key,
            why: MetaWhy::Json,
            events,
        },
        MetaError::BadMember { name } => Body::BadMeta {
            key,
            why: MetaWhy::Member { name },
            events,
        },
        MetaError::Unsupported { name } => Body::BadMeta {
            key,
            why: MetaWhy::Unsupported { name },
            events,
        },
        MetaError::Memory => Body::Memory,
    }
}

/// The answer to a line that needs a chunk under a key whose bytes are none.
pub fn damaged(key: Name, cause: Damage) -> Body
    ensures { result ≡ damage_body key cause }
{
    match cause {
        Damage::Zarr { cause } => chunk_body(key, cause),
        Damage::N5 { cause } => block_body(key, cause),
    }
}

fn chunk_body(key: Name, cause: ChunkError) -> Body
    ensures { result ≡ chunk_body key cause }
{
    match cause {
        ChunkError::WrongLength { have, want } => Body::Damaged {
            key,
            why: Why::Length { have, want },
        },
        ChunkError::Memory => Body::Memory,
    }
}

fn block_body(key: Name, cause: BlockError) -> Body
    ensures { result ≡ block_body key cause }
{
    match cause {
        BlockError::WrongMode { have } => because(key, Why::Mode { have }),
        BlockError::WrongRank { have } => because(key, Why::Rank { have }),
        BlockError::WrongSize { dim, have } => because(key, Why::Size { dim, have }),
        BlockError::WrongLength { have, want } => because(key, Why::Length { have, want }),
        BlockError::Memory => Body::Memory,
    }
}

fn because(key: Name, why: Why) -> Body
    ensures { result ≡ Body.Damaged key why }
{
    Body::Damaged { key, why }
}
