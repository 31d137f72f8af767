//! A read, decided and carried out.
ghost use Rattle.blocklist.specs.Elements.{numbers_in};
ghost use Rattle.blocklist.specs.Faults.{told};
ghost use Rattle.card.specs.Outcomes.{outcome, shown_by};
ghost use Rattle.card.specs.Reactions.{read_carried, read_judged};
ghost use Rattle.command.specs.Commands.{carried};
ghost use Rattle.hopper.specs.Windows.{view as public_view};
ghost use Rattle.std.specs.Result.{result_map_both};
ghost use Rattle.std.specs.Prelude.{◌≡◌, replicate};

use crate::card::Card;
use crate::outcome::Outcome;
use blocklist::{Blocks, Refusal};
use cipher::Cipher;
use command::Request;
use decision::View;
use hopper::view;
use reply::{Packet, READ_REPLY};
use volatile::Volatile;

/// The blocks that a read shows, or its refusal.
fn decide_read(view: &View, request: Request) -> Result<Blocks, Refusal>
    ensures { result_map_both numbers_in told result ≡ read_judged view.now (carried request.entry) }
{
    let list = request.read_header()?;
    Ok(view.decide_read(request.service, list)?)
}

impl<C: Cipher> Card<'_, C> {
    /// A read that is heard.
    pub(crate) fn read(
        &self,
        volatile: &Volatile,
        request: Request,
        sheet: &mut [u64; 16],
    ) -> Outcome
        ensures answer { outcome result ≡ shown_by (read_carried C.enciphered self.now.cells.now volatile.now (carried request.entry) (read_judged (public_view self.now.cells.now volatile.now) (carried request.entry))) }
        ensures wiped { sheet.new ≡ replicate 16 0 }
    {
        *sheet = [0; 16];
        match decide_read(&view(self.cells, volatile), request) {
            Ok(blocks) => {
                let text = self.text(volatile, &blocks, sheet);
                Outcome::served(Packet::shown(&request.identity, &text), None)
            }
            Err(refusal) => Outcome::refused(READ_REPLY, &request.identity, refusal),
        }
    }
}
