//! The elements of a block list, one after the other.
ghost use Rattle.std.specs.Prelude.{◌≡◌, length};
ghost use Rattle.std.specs.Iterator.{at_most};
ghost use Rattle.blocklist.specs.Elements.{after_first, first_element};

use crate::element::{Element, first_element};
use byte_arrays::tail;

/// The elements that the bytes begin with, each with the bytes that it takes, up to the first that is not whole.
#[derive(Drop)]
pub(crate) struct Elements<'a> {
    rest: &'a [u8],
}

impl<'a> Elements<'a> {
    pub(crate) fn of(bytes: &'a [u8]) -> Elements<'a>
        ensures { result.rest.now ≡ bytes.now }
    {
        Elements { rest: bytes }
    }
}

impl<'a> Iterator for Elements<'a> {
    type Item = (Element, usize);

    ghost next_gives = { λ s r t. (r ≡ first_element s.rest.now) × (t.rest.now ≡ after_first s.rest.now) };

    ghost remaining = { λ s. at_most (length s.rest.now) };

    fn next(&mut self) -> Option<(Element, usize)> {
        let (element, width) = first_element(self.rest)?;
        self.rest = tail(self.rest, width);
        Some((element, width))
    }
}
