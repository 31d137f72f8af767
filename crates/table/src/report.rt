//! What finish answers.

/// The frames in reply memory and their bytes, the slot of each frame (0 beyond), and of a refusal its place and element (0 if
/// there is none).
// Place and element are numbers, as a card gives them: public fields take any byte, and an enum would take fewer.
// The slots are an array with 0 after the last, as they are told to the caller.
#[derive(Clone, Copy)]
pub struct Report {
    pub frames: usize,
    pub bytes: usize,
    pub slots: [u8; 4],
    pub place: u8,
    pub element: u8,
}
