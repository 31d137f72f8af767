//! Words of 32 bits.
ghost use Rattle.std.specs.Prelude.{◌≡◌};
ghost use Rattle.byte_arrays.specs.Words.{joined};

/// Two words as one number, the high one first.
pub fn joined(high: u32, low: u32) -> u64
    ensures { result ≡ joined high low }
{
    // Casts, since the ciphers call this inside the guard's life, where no trait is called.
    (high as u64) << 32 | low as u64
}
