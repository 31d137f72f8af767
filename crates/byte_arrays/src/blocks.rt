//! Blocks of eight bytes: combined bit by bit, put together, and taken apart.
ghost use Rattle.std.specs.Prelude.{◌≡◌, ◌++◌};
ghost use Rattle.byte_arrays.specs.Blocks.{xored, front_half, back_half};
ghost use Rattle.byte_arrays.specs.Equality.{same_bytes};

/// The exclusive or of two blocks.
pub fn xor8(a: [u8; 8], b: &[u8; 8]) -> [u8; 8]
    ensures { result ≡ xored a b.now }
{
    std::array::from_fn(|i| a[i] ^ b[i])
}

/// Two blocks, one after the other. (The back part is copied first: the prover then knows both.)
pub fn join(front: &[u8; 8], back: &[u8; 8]) -> [u8; 16]
    ensures { result ≡ front.now ++ back.now }
{
    let mut both = [0; 16];
    both[8..16].copy_from_slice(back);
    both[0..8].copy_from_slice(front);
    both
}

/// The two blocks of sixteen bytes.
pub fn halves(bytes: &[u8; 16]) -> ([u8; 8], [u8; 8])
    ensures { result ≡ (front_half bytes.now, back_half bytes.now) }
{
    (
        bytes[..8].try_into().unwrap(),
        bytes[8..].try_into().unwrap(),
    )
}

/// Whether two blocks are the same.
// `==` under the name that the definition of a verdict has, which callers need not open.
#[tactic(auto, unfolding(crate::specs::Equality::same_bytes))]
pub fn same8(a: &[u8; 8], b: &[u8; 8]) -> bool
    ensures { result ≡ same_bytes a.now b.now }
{
    *a == *b
}
