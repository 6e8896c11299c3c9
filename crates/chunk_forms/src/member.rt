ghost use Rattle.std.specs.Prelude.{◌≡◌};
ghost use Rattle.chunk_forms.specs.Members.{member_name};

use std::alloc::AllocError;

/// A member without which no array is made.
#[derive(Clone, Copy, Debug, PartialEq, Eq)]
pub enum Member {
    Shape,
    Dimensions,
    Dtype,
    Chunks,
    BlockSize,
    ChunkGrid,
}

impl Member {
    /// The member's name.
    pub fn name(self) -> &'static str
        ensures { result.now ≡ member_name self }
    {
        match self {
            Member::Shape => "shape",
            Member::Dimensions => "dimensions",
            Member::Dtype => "dtype",
            Member::Chunks => "chunks",
            Member::BlockSize => "blockSize",
            Member::ChunkGrid => "chunk_grid",
        }
    }
}

/// Why no array is made.
#[derive(Clone, Copy, Debug, PartialEq, Eq)]
pub enum MadeError {
    /// The member isn't asked and has no default.
    Undetermined { member: Member },
    /// An allocation failed.
    Memory,
}

impl From<AllocError> for MadeError {
    ghost use Rattle.chunk_forms.specs.declared.member.MadeError.TheVariants as error;

    ghost from_gives = { λ _ e. e ≡ error.Memory };

    fn from(_: AllocError) -> Self {
        MadeError::Memory
    }
}
