//! The work sheet: sixteen numbers that a caller lends a cipher for its round keys.
ghost use Rattle.std.specs.Prelude.{◌≡◌, replicate};

/// A work sheet on loan. However the loan ends, by a result or by a refusal, all its numbers are zero
/// afterwards, so that no round key outlives the call that made it.
pub struct Sheet<'a>(pub &'a mut [u64; 16]);

impl Drop for Sheet<'_> {
    fn drop(self)
        ensures { self.exit.0.now ≡ replicate 16 0 }
    {
        *self.0 = [0; 16];
        let Sheet(_) = self;
    }
}
