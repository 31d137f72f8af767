//! Byte strings as fields of a line.
use hex_digits::Hex;
use std::fmt;

/// Shown in capital hexadecimal digits; an empty string as a hyphen, so that no field of a line is empty.
#[derive(Drop)]
pub struct Field<'a>(pub &'a [u8]);

impl<'a> fmt::Display for Field<'a> {
    fn fmt<W: fmt::Write>(&self, f: &mut fmt::Formatter<W>) -> fmt::Result {
        if self.0.is_empty() {
            return write!(f, "-");
        }
        write!(f, "{}", Hex(self.0))
    }
}
