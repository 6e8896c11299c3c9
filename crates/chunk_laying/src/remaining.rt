// What a new shape leaves of a chunk.
ghost use Rattle.std.specs.Prelude.{◌≡◌, length};
ghost use Rattle.history.specs.Resizes.{reaches_into, is_shorter};
ghost use Rattle.chunk_laying.specs.Laid.{IsChunkOf};
ghost use Rattle.chunk_laying.specs.Resized.{is_gone, is_cut_in_part};

/// Whether no cell of the chunk lies in the array's new shape.
pub fn is_gone(chunk_shape: &[u64], new: &[u64], chunk: &[u64]) -> bool
    requires { IsChunkOf new.now chunk_shape.now chunk.now }
    ensures { result ≡ is_gone chunk_shape.now new.now chunk.now }
{
    !reaches_into(chunk_shape, new, chunk)
}

/// Whether the chunk has a cell in the old shape that isn't in the new one, and one that is.
pub fn is_cut_in_part(chunk_shape: &[u64], old: &[u64], new: &[u64], chunk: &[u64]) -> bool
    requires old { IsChunkOf old.now chunk_shape.now chunk.now }
    requires new { IsChunkOf new.now chunk_shape.now chunk.now }
    ensures { result ≡ is_cut_in_part chunk_shape.now old.now new.now chunk.now }
{
    reaches_into(chunk_shape, old, chunk)
        && is_shorter(chunk_shape, old, new, chunk)
        && reaches_into(chunk_shape, new, chunk)
}

// Whether the chunk has a cell in the shape: its first one.
fn reaches_into(chunk_shape: &[u64], shape: &[u64], chunk: &[u64]) -> bool
    requires { IsChunkOf shape.now chunk_shape.now chunk.now }
    ensures { result ≡ reaches_into chunk_shape.now shape.now chunk.now }
{
    for k in 0..chunk_shape.len() {
        if shape[k] <= chunk[k] * chunk_shape[k] {
            return false;
        }
    }
    true
}

// Whether the new shape ends before the chunk's last cell along some dimension.
fn is_shorter(chunk_shape: &[u64], old: &[u64], new: &[u64], chunk: &[u64]) -> bool
    requires old { IsChunkOf old.now chunk_shape.now chunk.now }
    requires new { length new.now ≡ length chunk_shape.now }
    ensures { result ≡ is_shorter chunk_shape.now old.now new.now chunk.now }
{
    for k in 0..chunk_shape.len() {
        let end = chunk[k] * chunk_shape[k] + chunk_shape[k];
        if new[k] < old[k].min(end) {
            return true;
        }
    }
    false
}
