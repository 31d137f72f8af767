//! One element of a block list, and the block number that it names.
ghost use Rattle.blocklist.specs.Elements.{element, first_element, named};
ghost use Rattle.std.specs.Prelude.{◌≡◌};

use crate::fault::Fault;
use crate::places::ELEMENT_PLACE;

/// An element: three access bits, four order bits and a block number.
#[derive(Clone, Copy)]
pub(crate) struct Element {
    access: u8,
    order: u8,
    block: u16,
}

/// The element that the bytes begin with and the bytes that it takes, or nothing where they end before it does.
pub(crate) fn first_element(bytes: &[u8]) -> Option<(Element, usize)>
    ensures { result ≡ first_element bytes.now }
{
    match bytes {
        [head @ 128.., block, ..] => Some((Element::new(*head, *block, 0), 2)),
        [head @ ..128, low, high, ..] => Some((Element::new(*head, *low, *high), 3)),
        _ => None,
    }
}

impl Element {
    /// The element of a first byte and the two bytes of a block number.
    fn new(head: u8, low: u8, high: u8) -> Element
        ensures { result ≡ element head low high }
    {
        Element {
            access: head / 16 % 8,
            order: head % 16,
            block: u16::from_le_bytes([low, high]),
        }
    }

    /// The block number, unless the access bits or, after them, the order bits are refused.
    pub(crate) fn checked(self, index: u8) -> Result<u16, Fault>
        ensures { result ≡ named index self }
    {
        if self.access != 0 {
            return Err(Fault::at_element(ELEMENT_PLACE, index, 0xA7));
        }
        if self.order != 0 {
            return Err(Fault::at_element(ELEMENT_PLACE, index, 0xA3));
        }
        Ok(self.block)
    }
}
