//! The decision on a read.
ghost use Rattle.blocklist.specs.Elements.{numbers_in, numbers_or_fault};
ghost use Rattle.blocklist.specs.Faults.{judged};
ghost use Rattle.decision.specs.Reads.{block_tests, blocks_tested, open_in, read_decided};
ghost use Rattle.decision.specs.Services.{is_read_write, memory_tests};
ghost use Rattle.std.specs.Prelude.{◌≡◌, ◌≤◌, [], length};

use crate::numbers::{is_block, is_check_alone, is_tag, other_tag};
use crate::service::Service;
use crate::view::View;
use blocklist::{BLOCK_PLACE, Blocks, Fault, MEMORY_PLACE, blocks_of};
use blocks::Permission;

/// The test that the memory is sound, where it has to be.
pub(crate) fn check_memory(sound_enough: bool) -> Result<(), Fault>
    ensures { result ≡ judged (memory_tests sound_enough) (tt {0}) }
{
    if !sound_enough {
        return Err(Fault::of_command(MEMORY_PLACE, 0xFF, 0x70));
    }
    Ok(())
}

impl View {
    /// Whether a block may be written.
    pub(crate) fn opens(&self, block: u16) -> bool
        ensures { result ≡ open_in self.now block }
    {
        self.config.permission(block, self.stage) != Permission::ReadOnly
    }

    /// One element of a read, after those before it.
    fn check_block(&self, service: Service, before: &[u16], block: u16) -> Result<(), Fault>
        requires { length before.now ≤ 4 }
        ensures { result ≡ judged (block_tests self.now (is_read_write service) before.now block) (tt {0}) }
    {
        // A cast, and no `try_from`: it is proved to lose nothing, since a list has at most four numbers.
        let index = before.len() as u8;
        if !is_block(block) || service == Service::ReadWrite && !self.opens(block) {
            return Err(Fault::at_element(BLOCK_PLACE, index, 0xA8));
        }
        if is_tag(block) && (index == 0 || before.contains(&other_tag(block))) {
            return Err(Fault::at_element(BLOCK_PLACE, index, 0xB0));
        }
        if is_tag(block) && !self.seeded {
            return Err(Fault::at_element(BLOCK_PLACE, index, 0xB1));
        }
        if !self.authenticated && self.config.restricts_reading(block) {
            return Err(Fault::at_element(BLOCK_PLACE, index, 0xB1));
        }
        Ok(())
    }

    /// The elements of a read, one after the other.
    #[tactic(auto, using(crate::proofs::Steps::steps))]
    fn check_blocks(&self, service: Service, blocks: &Blocks) -> Result<(), Fault>
        ensures { result ≡ blocks_tested self.now (is_read_write service) [] (numbers_in blocks.now) }
    {
        let numbers = blocks.as_slice();
        for (index, block) in numbers.iter().enumerate() {
            self.check_block(service, &numbers[..index], *block)?;
        }
        Ok(())
    }

    /// The blocks that a read shows, or its refusal. The list has passed the tests of the header.
    pub fn decide_read(&self, service: u16, list: &[u8]) -> Result<Blocks, Fault>
        ensures { numbers_or_fault result ≡ read_decided self.now service list.now }
    {
        let blocks = blocks_of(list)?;
        let service = Service::try_from(service)?;
        check_memory(self.sound || is_check_alone(blocks.as_slice()))?;
        self.check_blocks(service, &blocks)?;
        Ok(blocks)
    }
}
