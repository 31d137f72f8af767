//! Bytes as a row of parts of one size, a cell in each. Bytes past the last whole part belong to none.
ghost use Rattle.std.specs.Prelude.{◌≡◌, ◌/◌, ◌<◌, length};
ghost use Rattle.memory.specs.Answers.{number_of, number_at};
ghost use Rattle.memory.specs.Parts.{part_put};

use crate::cell::MemoryError;

/// Puts another part in the place of the part n.
// A slice: an array of known length is copied by a loop of its own, at twice the cost of one copy.
pub fn put_part(bytes: &mut [u8], n: usize, part: &[u8]) -> Result<(), MemoryError>
    requires { 0 < length part.now }
    ensures after { bytes.new ≡ part_put (length part.now) bytes.old n part.now }
    ensures number { number_of result ≡ number_at (length bytes.old / length part.now) n }
{
    if n >= bytes.len() / part.len() {
        return Err(MemoryError::NoSuchCell);
    }
    // By a range: of a write through `as_chunks_mut` the library does not say what it leaves in the bytes.
    let start = n * part.len();
    bytes[start..start + part.len()].copy_from_slice(part);
    Ok(())
}
