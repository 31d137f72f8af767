//! The block numbers that a list names, one element after the other.
ghost use Rattle.std.specs.Prelude.{◌≡◌, ◌≤◌, length};
ghost use Rattle.blocklist.specs.Elements.{blocks_named, numbers_in, numbers_or_fault};

use crate::blocks::Blocks;
use crate::elements::Elements;
use crate::fault::Fault;
use bounded::Bounded;

impl Blocks {
    /// The numbers.
    pub fn as_slice(&self) -> &[u16]
        ensures numbers { result.now ≡ numbers_in self.now }
        ensures few { length result.now ≤ 4 }
    {
        self.held.as_slice()
    }
}

/// The block numbers of a list, or the fault of the first element that is refused. At most four elements are read,
/// up to the first that is not whole.
pub fn blocks_of(list: &[u8]) -> Result<Blocks, Fault>
    ensures { numbers_or_fault result ≡ blocks_named list.now }
{
    let mut found = Bounded::new();
    for (index, (element, _)) in (0..4_u8).zip(Elements::of(list)) {
        found.push(element.checked(index)?);
    }
    Ok(Blocks { held: found })
}
