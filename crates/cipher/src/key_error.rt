//! Why no key was made.

#[derive(Clone, Copy)]
pub enum KeyError {
    /// too few bytes, or too many, for a key of the cipher: number 8
    WrongLength,
}
