//! Bytes shown as capital hexadecimal digits.
ghost use Rattle.std.specs.Prelude.{Some};
ghost use Rattle.hex_digits.specs.Shown.{shown};

use std::fmt;

/// Bytes that are shown as two capital digits each.
#[derive(Clone, Copy)]
pub struct Hex<'a>(pub &'a [u8]);

impl<'a> fmt::Display for Hex<'a> {
    ghost output = { λ hex. Some (shown hex.0.now) };

    fn fmt<W: fmt::Write>(&self, f: &mut fmt::Formatter<W>) -> fmt::Result {
        for &byte in self.0 {
            write!(f, "{byte:02X}")?;
        }
        Ok(())
    }
}
