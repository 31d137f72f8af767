//! Which commands a hopper hears.
ghost use Rattle.command.specs.Commands.{asked};
ghost use Rattle.volatile.specs.Radios.{deafened, hears, is_poll_shut, poll_set};
ghost use Rattle.std.specs.Prelude.{◌≡◌};

use command::Command;

/// The state of a hopper's radio.
#[derive(Clone, Copy)]
pub enum Radio {
    Open,
    /// does not answer polling
    PollShut,
    /// hears nothing until power goes off; what STATE said of polling stays to be read
    Deaf { poll_shut: bool },
}

impl Radio {
    /// Whether a hopper hears a command that reaches it.
    pub fn hears(self, command: Command) -> bool
        ensures { result ≡ hears self (asked command.entry) }
    {
        // The project has the radio's own state matched together with the command heard.
        match (self, command) {
            (
                Radio::Open | Radio::PollShut,
                Command::Read(_) | Command::Write(_) | Command::Deafen { .. },
            ) => true,
            (Radio::Open, Command::Polling { .. }) => true,
            (Radio::PollShut, Command::Polling { .. }) => false,
            (Radio::Deaf { .. }, _) => false,
            (_, Command::Unknown) => false,
        }
    }

    /// The radio once it has heard the command that makes it deaf.
    pub fn deafened(self) -> Radio
        ensures { result ≡ deafened self }
    {
        Radio::Deaf {
            poll_shut: self.is_poll_shut(),
        }
    }

    /// What STATE says of polling.
    pub fn is_poll_shut(self) -> bool
        ensures { result ≡ is_poll_shut self }
    {
        matches!(self, Radio::PollShut | Radio::Deaf { poll_shut: true })
    }

    /// The radio after STATE is written. Deafness stays.
    pub fn with_polling(self, poll_shut: bool) -> Radio
        ensures { result ≡ poll_set self poll_shut }
    {
        match self {
            Radio::Deaf { .. } => Radio::Deaf { poll_shut },
            Radio::Open | Radio::PollShut if poll_shut => Radio::PollShut,
            Radio::Open | Radio::PollShut => Radio::Open,
        }
    }
}
