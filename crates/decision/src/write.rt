//! The decision on a write, up to the verdict on its MAC.
ghost use Rattle.blocklist.specs.Faults.{judged};
ghost use Rattle.decision.specs.Reads.{open_in};
ghost use Rattle.decision.specs.Writes.{alone_tests, barred_in, blocks_planned, plan_of, signed_in, signed_tests, write_planned};
ghost use Rattle.std.specs.Prelude.{◌≡◌, true, false};

use crate::numbers::{MAC_A, is_written_alone, is_written_signed};
use crate::read::check_memory;
use crate::service::check_write_service;
use crate::view::View;
use blocklist::{BLOCK_PLACE, Fault, HEADER_PLACE, blocks_of};
use blocks::{Permission, ceiling};

/// What a write that passes the tests is to do: write the block, and if it is signed, only after a verdict on its MAC.
// Both kinds of write name one block, so that an enum of the two would carry it twice and say no more.
#[derive(Clone, Copy)]
pub struct WritePlan {
    pub block: u16,
    pub signed: bool,
}

impl View {
    /// Whether a write to a block needs a MAC.
    fn needs_mac(&self, block: u16) -> bool
        ensures { result ≡ signed_in self.now block }
    {
        self.config.permission(block, self.stage) == Permission::ReadWriteMac
    }

    /// Whether a write to a block waits until the hopper is authenticated.
    fn bars(&self, block: u16) -> bool
        ensures { result ≡ barred_in self.now block }
    {
        !self.authenticated && self.config.restricts_writing(block)
    }

    /// A write of one block.
    fn plan_alone(&self, block: u16) -> Result<WritePlan, Fault>
        ensures { result ≡ judged (alone_tests self.now block) (plan_of false block) }
    {
        if !self.opens(block) || !is_written_alone(block) {
            return Err(Fault::at_element(BLOCK_PLACE, 0, 0xA8));
        }
        if self.needs_mac(block) || self.bars(block) {
            return Err(Fault::at_element(BLOCK_PLACE, 0, 0xB1));
        }
        Ok(WritePlan {
            block,
            signed: false,
        })
    }

    /// A write of two blocks, given the counter that it carries.
    fn plan_signed(&self, block: u16, second: u16, counter: u32) -> Result<WritePlan, Fault>
        ensures { result ≡ judged (signed_tests self.now block second counter) (plan_of true block) }
    {
        if !self.opens(block) || !is_written_signed(block) {
            return Err(Fault::at_element(BLOCK_PLACE, 0, 0xA8));
        }
        if second != MAC_A {
            return Err(Fault::at_element(BLOCK_PLACE, 1, 0xA8));
        }
        if self.bars(block) {
            return Err(Fault::at_element(BLOCK_PLACE, 0, 0xB1));
        }
        if !self.seeded {
            return Err(Fault::at_element(BLOCK_PLACE, 1, 0xB1));
        }
        if counter != self.counter || self.counter >= ceiling(self.stage) {
            return Err(Fault::at_element(BLOCK_PLACE, 1, 0xB2));
        }
        Ok(WritePlan {
            block,
            signed: true,
        })
    }

    /// A write of these blocks.
    fn plan_blocks(&self, numbers: &[u16], counter: u32) -> Result<WritePlan, Fault>
        ensures { result ≡ blocks_planned self.now counter numbers.now }
    {
        match numbers {
            [block] => self.plan_alone(*block),
            [block, second] => self.plan_signed(*block, *second, counter),
            _ => Err(Fault::of_command(HEADER_PLACE, 0xFF, 0xA2)),
        }
    }

    /// What a write is to do, or its refusal: of its list, which has passed the tests of the header, and of the counter
    /// sent with its MAC, if it has one.
    pub fn plan_write(&self, service: u16, list: &[u8], counter: u32) -> Result<WritePlan, Fault>
        ensures { result ≡ write_planned self.now service list.now counter }
    {
        let blocks = blocks_of(list)?;
        check_write_service(service)?;
        check_memory(self.sound)?;
        self.plan_blocks(blocks.as_slice(), counter)
    }
}
