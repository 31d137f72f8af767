//! The slip for an owed reply.
ghost use Rattle.table.specs.Modes.{blank_slip, owed_slip};
ghost use Rattle.std.specs.Prelude.{◌≡◌, true, not};

use crate::report::Report;

/// A slip of plain numbers for a reply that is owed: how many frames lie in reply memory, and how many bytes they take. It
/// is to stand beside the indicator, cannot be copied, and may be let go only once it is spent.
// The project prescribes this form. An option around the numbers would lose what a spent slip was for.
pub struct Slip {
    pub(crate) frames: usize,
    pub(crate) bytes: usize,
    pub(crate) spent: bool,
}

impl Slip {
    /// A slip that owes nothing, to hand over where no reply is owed.
    pub fn blank() -> Slip
        ensures { result ≡ blank_slip }
    {
        Slip {
            frames: 0,
            bytes: 0,
            spent: true,
        }
    }

    /// The slip for a reply.
    pub fn owed(report: &Report) -> Slip
        ensures { result ≡ owed_slip report.now }
    {
        Slip {
            frames: report.frames,
            bytes: report.bytes,
            spent: false,
        }
    }

    /// Whether a reply is still owed on it.
    pub fn is_owed(&self) -> bool
        ensures { result ≡ not self.now.spent }
    {
        !self.spent
    }

    /// How many frames are to be sent.
    pub fn frames(&self) -> usize
        ensures { result ≡ self.now.frames }
    {
        self.frames
    }

    /// How many bytes they take.
    pub fn bytes(&self) -> usize
        ensures { result ≡ self.now.bytes }
    {
        self.bytes
    }
}

impl Drop for Slip {
    fn drop(self)
        requires { self.spent ≡ true }
    {
        let Slip {
            frames: _,
            bytes: _,
            spent: _,
        } = self;
    }
}
