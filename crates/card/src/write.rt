//! A write, decided and carried out.
ghost use Rattle.blocklist.specs.Faults.{told};
ghost use Rattle.card.specs.Outcomes.{done, done_by};
ghost use Rattle.card.specs.Reactions.{accepted, body_carried, counter_sent, judged_write, kept_after, plan_carried, planned, verdict, write_carried};
ghost use Rattle.command.specs.Commands.{carried};
ghost use Rattle.command.specs.Headers.{body as body_of, payload_block, write_header};
ghost use Rattle.std.specs.Result.{result_map_both};
ghost use Rattle.std.specs.Prelude.{◌≡◌, [], replicate};

use crate::card::Card;
use crate::order::Order;
use crate::outcome::Outcome;
use blocklist::{BLOCK_PLACE, Fault, HEADER_PLACE, Refusal};
use blocks::{CARD_KEY_CELL, three_byte_number};
use cipher::Cipher;
use command::{Request, WriteBody};
use decision::{View, WritePlan};
use hopper::{accepted_flags, held, stored, view};
use mac::session::session_keys;
use reply::{Packet, WRITE_REPLY};
use volatile::Volatile;

/// The counter that a write carries with its MAC.
#[tactic(auto, unfolding(blocks::specs::Counters::three_byte_number))]
fn counter_of(mac: Option<[u8; 16]>) -> u32
    ensures { result ≡ counter_sent mac }
{
    let Some(block) = mac else {
        return 0;
    };
    let [_, _, _, _, _, _, _, _, low, middle, high, ..] = block;
    three_byte_number([low, middle, high])
}

/// The plan of a write, or its refusal.
fn plan(view: &View, service: u16, list: &[u8], mac: Option<[u8; 16]>) -> Result<WritePlan, Refusal>
    ensures { result_map_both (λ p. p) told result ≡ planned view.now service list.now mac }
{
    Ok(view.plan_write(service, list, counter_of(mac))?)
}

impl<C: Cipher> Card<'_, C> {
    /// The volatile record after an accepted write: RC with new session keys, or STATE.
    fn keep(&self, volatile: &mut Volatile, order: &Order, sheet: &mut [u64; 16])
        ensures kept { volatile.new ≡ kept_after C.enciphered self.now.cells.now volatile.old order.now.block order.now.sent }
        ensures wiped { sheet.new ≡ replicate 16 0 }
    {
        *sheet = [0; 16];
        let sent = &order.sent;
        match order.block {
            0x80 => {
                let card_key = held(self.cells, CARD_KEY_CELL);
                // a cipher with keys of sixteen bytes refuses none
                volatile.keys = session_keys(self.cipher, &card_key, sent, sheet).unwrap();
                volatile.session.write_rc(*sent);
            }
            0x92 => volatile.session.write_state(sent),
            _ => {}
        }
    }

    /// An accepted write.
    fn accept(&self, volatile: &mut Volatile, order: Order, sheet: &mut [u64; 16]) -> Outcome
        ensures answer { done result volatile.new ≡ done_by (accepted C.enciphered self.now.cells.now volatile.old order.identity order.block order.sent []) }
        ensures wiped { sheet.new ≡ replicate 16 0 }
    {
        let state = view(self.cells, volatile);
        self.keep(volatile, &order, sheet);
        let flags = accepted_flags(&state, order.block);
        let reply = Packet::status(WRITE_REPLY, &order.identity, flags);
        Outcome::served(reply, stored(&state, order.block, &order.sent))
    }

    /// A write with a MAC, by the verdict on it.
    fn judge(
        &self,
        volatile: &mut Volatile,
        order: Order,
        mac: &[u8; 16],
        sheet: &mut [u64; 16],
    ) -> Outcome
        ensures answer { done result volatile.new ≡ done_by (judged_write C.enciphered self.now.cells.now volatile.old order.identity order.block order.sent (verdict C.enciphered self.now.cells.now volatile.old order.block order.sent mac.now)) }
        ensures wiped { sheet.new ≡ replicate 16 0 }
    {
        if self.verdict(volatile, &order, mac, sheet) {
            return self.accept(volatile, order, sheet);
        }
        let fault = Fault::at_element(BLOCK_PLACE, 1, 0xB2);
        Outcome::refused(WRITE_REPLY, &order.identity, Refusal::Error(fault))
    }

    /// A planned write with its data: of a write that passed its header they are all there.
    fn carry_out(
        &self,
        volatile: &mut Volatile,
        identity: [u8; 8],
        plan: WritePlan,
        body: WriteBody,
        sheet: &mut [u64; 16],
    ) -> Outcome
        ensures answer { done result volatile.new ≡ done_by (plan_carried C.enciphered self.now.cells.now volatile.old identity (payload_block 0 (body_of body.entry).1) (payload_block 1 (body_of body.entry).1) plan) }
        ensures wiped { sheet.new ≡ replicate 16 0 }
    {
        *sheet = [0; 16];
        let Some(sent) = body.payload_block(0) else {
            return Outcome::silent(HEADER_PLACE);
        };
        let order = Order {
            identity,
            block: plan.block,
            sent,
        };
        if !plan.signed {
            return self.accept(volatile, order, sheet);
        }
        match body.payload_block(1) {
            Some(mac) => self.judge(volatile, order, &mac, sheet),
            None => Outcome::silent(HEADER_PLACE),
        }
    }

    /// A write that passed its header.
    fn write_body(
        &self,
        volatile: &mut Volatile,
        request: Request,
        body: WriteBody,
        sheet: &mut [u64; 16],
    ) -> Outcome
        ensures answer { done result volatile.new ≡ done_by (body_carried C.enciphered self.now.cells.now volatile.old (carried request.entry) (body_of body.entry)) }
        ensures wiped { sheet.new ≡ replicate 16 0 }
    {
        *sheet = [0; 16];
        let state = view(self.cells, volatile);
        match plan(&state, request.service, body.list, body.payload_block(1)) {
            Ok(plan) => self.carry_out(volatile, request.identity, plan, body, sheet),
            Err(refusal) => Outcome::refused(WRITE_REPLY, &request.identity, refusal),
        }
    }

    /// A write that is heard.
    pub(crate) fn write(
        &self,
        volatile: &mut Volatile,
        request: Request,
        sheet: &mut [u64; 16],
    ) -> Outcome
        ensures answer { done result volatile.new ≡ done_by (write_carried C.enciphered self.now.cells.now volatile.old (carried request.entry) (write_header (carried request.entry))) }
        ensures wiped { sheet.new ≡ replicate 16 0 }
    {
        *sheet = [0; 16];
        match request.write_header() {
            Ok(body) => self.write_body(volatile, request, body, sheet),
            Err(refusal) => Outcome::refused(WRITE_REPLY, &request.identity, refusal),
        }
    }
}
