//! The services that reads and writes ask for.
ghost use Rattle.blocklist.specs.Faults.{judged, of_command};
ghost use Rattle.decision.specs.Services.{service_of, write_service_tests};
ghost use Rattle.std.specs.Prelude.{◌≡◌};

use blocklist::{Fault, SERVICE_PLACE};

/// A service: of reads and writes, or of reads alone.
#[derive(Clone, Copy, PartialEq, Eq)]
pub(crate) enum Service {
    ReadWrite,
    ReadOnly,
}

/// The refusal of a service code.
fn refused_service() -> Fault
    ensures { result ≡ of_command 4 0x01 0xA6 }
{
    Fault::of_command(SERVICE_PLACE, 0x01, 0xA6)
}

impl TryFrom<u16> for Service {
    type Error = Fault;

    ghost try_from_gives = { λ code result. result ≡ service_of code };

    fn try_from(code: u16) -> Result<Service, Fault> {
        match code {
            0x0009 => Ok(Service::ReadWrite),
            0x000B => Ok(Service::ReadOnly),
            _ => Err(refused_service()),
        }
    }
}

/// The service of a write: reads and writes alone.
pub(crate) fn check_write_service(code: u16) -> Result<(), Fault>
    ensures { result ≡ judged (write_service_tests code) (tt {0}) }
{
    match Service::try_from(code)? {
        Service::ReadWrite => Ok(()),
        Service::ReadOnly => Err(refused_service()),
    }
}
