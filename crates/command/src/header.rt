//! The tests of the header of a read or a write, before its block list is looked into.
ghost use Rattle.std.specs.Result.{result_map_both};
ghost use Rattle.command.specs.Commands.{carried};
ghost use Rattle.blocklist.specs.Faults.{fault_told, judged, told};
ghost use Rattle.command.specs.Headers.{body, count_tests, length_test, parted, payload_block, read_header, write_header};
ghost use Rattle.std.specs.Prelude.{◌≡◌};

use crate::request::Request;
use blocklist::{Fault, HEADER_PLACE, Refusal, read_is_exact, read_list, write_is_exact};
use byte_arrays::copied;

/// The block list of a write and the data after it.
#[derive(Clone, Copy)]
pub struct WriteBody<'a> {
    pub list: &'a [u8],
    pub payload: &'a [u8],
}

impl WriteBody<'_> {
    /// The sixteen bytes for the block at an index, counted from 0, if they are there.
    pub fn payload_block(self, index: u8) -> Option<[u8; 16]>
        ensures { result ≡ payload_block index (body self.entry).1 }
    {
        let from = 16 * usize::from(index);
        copied(self.payload.get(from..from + 16)?)
    }
}

/// The test of the length, which comes after those of the counts: where it is not exact, nothing is sent.
fn check_length(is_exact: bool) -> Result<(), Refusal>
    ensures { result_map_both (λ u. u) told result ≡ judged (length_test is_exact) tt }
{
    if !is_exact {
        return Err(Refusal::Silence {
            place: HEADER_PLACE,
        });
    }
    Ok(())
}

impl<'a> Request<'a> {
    /// One service, and at least one block but no more than `most`.
    fn check_counts(self, most: u8) -> Result<(), Fault>
        ensures { result_map_both (λ u. u) fault_told result ≡ judged (count_tests most (carried self.entry)) tt }
    {
        if self.services != 1 {
            return Err(Fault::of_command(HEADER_PLACE, 0xFF, 0xA1));
        }
        if !(1..=most).contains(&self.blocks) {
            return Err(Fault::of_command(HEADER_PLACE, 0xFF, 0xA2));
        }
        Ok(())
    }

    /// The block list of a read that passes the tests of its header.
    pub fn read_header(self) -> Result<&'a [u8], Refusal>
        ensures { result_map_both (λ x. x.now) told result ≡ read_header (carried self.entry) }
    {
        // The counts first: a list that they refuse is not read.
        self.check_counts(4)?;
        check_length(read_is_exact(self.rest, self.blocks))?;
        Ok(self.rest)
    }

    /// The rest of a write, parted where its list ends.
    fn write_body(self) -> WriteBody<'a>
        ensures { body result ≡ parted (carried self.entry) }
    {
        let (_, taken) = read_list(self.rest, self.blocks);
        let (list, payload) = self.rest.split_at(taken);
        WriteBody { list, payload }
    }

    /// The block list and the data of a write that passes the tests of its header.
    pub fn write_header(self) -> Result<WriteBody<'a>, Refusal>
        ensures { result_map_both body told result ≡ write_header (carried self.entry) }
    {
        self.check_counts(2)?;
        check_length(write_is_exact(self.rest, self.blocks))?;
        Ok(self.write_body())
    }
}
