//! Refusals: an error reply with its status flags, or no reply at all.
ghost use Rattle.blocklist.specs.Faults.{at_element, of_command, fault_told, told};
ghost use Rattle.std.specs.Prelude.{◌≡◌};

/// The two status bytes of an error reply.
// Bytes of the wire, written at each test as the table of refusals has them; a name for each would hide that.
#[derive(Clone, Copy)]
pub struct Flags {
    pub sf1: u8,
    pub sf2: u8,
}

/// A refusal that is answered: the group of tests that gave it, the list element counted from 1 (0: none), and
/// the flags to send.
// Place and element are numbers, which the caller gets as they are, 0 for none; and public functions take any byte for them.
#[derive(Clone, Copy)]
pub struct Fault {
    pub place: u8,
    pub element: u8,
    pub flags: Flags,
}

/// Why a command is not carried out: nothing is sent, or an error reply.
#[derive(Clone, Copy)]
pub enum Refusal {
    Silence { place: u8 },
    Error(Fault),
}

impl Fault {
    /// A refusal of the command as a whole.
    pub fn of_command(place: u8, sf1: u8, sf2: u8) -> Fault
        ensures { result ≡ of_command place sf1 sf2 }
    {
        Fault {
            place,
            element: 0,
            flags: Flags { sf1, sf2 },
        }
    }

    /// A refusal at a list element, its index counted from 0. A list has at most four elements: at a greater index
    /// the refusal is of the command as a whole.
    pub fn at_element(place: u8, index: u8, code: u8) -> Fault
        ensures { result ≡ at_element place index code }
    {
        if index < 4 {
            Fault {
                place,
                element: index + 1,
                flags: Flags {
                    sf1: 1 << index,
                    sf2: code,
                },
            }
        } else {
            Fault::of_command(place, 0xFF, code)
        }
    }
}

/// A fault is a refusal with an error reply.
impl From<Fault> for Refusal {
    ghost from_gives = { λ fault refusal. told refusal ≡ fault_told fault };

    fn from(fault: Fault) -> Refusal {
        Refusal::Error(fault)
    }
}
