//! The reader of a block list: how many elements there are, and how many bytes they take.
ghost use Rattle.std.specs.Prelude.{◌≡◌, ◌≤◌, length};
ghost use Rattle.blocklist.specs.Lists.{list_read, read_exact, write_exact};
ghost use Rattle.blocklist.specs.ListLaws.{ExactListsNameAll, ListsWithDataAreWrites, WritesAreListsWithData};

use crate::elements::Elements;

/// Reads at most `count` elements from the start of the bytes, by their form bits alone. Answers the elements read
/// and the bytes taken.
pub fn read_list(bytes: &[u8], count: u8) -> (u8, usize)
    ensures value { result ≡ list_read count bytes.now }
    ensures within { result.1 ≤ length bytes.now }
{
    // Tried as a fold, which would make both sums: it was not proved of its closure that they fit.
    let mut read = 0;
    let mut taken = 0;
    for (_, width) in Elements::of(bytes).take(usize::from(count)) {
        read += 1;
        taken += width;
    }
    (read, taken)
}

/// Whether the bytes are a list of `count` elements and nothing else.
// One function for this and the next would be a third beside the two, which are both public.
pub fn read_is_exact(bytes: &[u8], count: u8) -> bool
    ensures { result ≡ read_exact count bytes.now }
{
    let (elements, taken) = read_list(bytes, count);
    elements == count && taken == bytes.len()
}

/// Whether the bytes are a list of `count` elements, sixteen data bytes for each of them, and nothing else.
pub fn write_is_exact(bytes: &[u8], count: u8) -> bool
    ensures { result ≡ write_exact count bytes.now }
{
    let (elements, taken) = read_list(bytes, count);
    elements == count && bytes.len() - taken == 16 * usize::from(count)
}

/// A write of exact length is an exact list with its data after it, and nothing else is; an exact list names one
/// block for each element.
pub fn lists_are_exact()
    ensures writes { ListsWithDataAreWrites }
    ensures parted { WritesAreListsWithData }
    ensures named { ExactListsNameAll }
{}
