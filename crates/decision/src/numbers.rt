//! Block numbers in lists.
ghost use Rattle.decision.specs.Numbers.{check_alone, exists, is_tag, other_tag, written_alone, written_signed};
ghost use Rattle.std.specs.Prelude.{◌≡◌};

/// The tag over the blocks listed before it.
pub(crate) const MAC: u16 = 0x81;

/// The tag that also covers the numbers of the list.
pub(crate) const MAC_A: u16 = 0x91;

/// Whether a block of that number exists.
pub(crate) fn is_block(number: u16) -> bool
    ensures { result ≡ exists number }
{
    matches!(number, 0x00..=0x0E | 0x80..=0x88 | 0x90..=0x92 | 0xA0)
}

/// Whether a block is a tag.
pub(crate) fn is_tag(number: u16) -> bool
    ensures { result ≡ is_tag number }
{
    matches!(number, MAC | MAC_A)
}

/// The other kind of tag.
pub(crate) fn other_tag(number: u16) -> u16
    ensures { result ≡ other_tag number }
{
    if number == MAC { MAC_A } else { MAC }
}

/// Whether a list is CRC_CHECK alone.
pub(crate) fn is_check_alone(numbers: &[u16]) -> bool
    ensures { result ≡ check_alone numbers.now }
{
    matches!(numbers, [0xA0])
}

/// Whether a write of one block may name it.
pub(crate) fn is_written_alone(number: u16) -> bool
    ensures { result ≡ written_alone number }
{
    matches!(number, 0x00..=0x0E | 0x80 | 0x82 | 0x84 | 0x86..=0x88 | 0x92)
}

/// Whether a write of two blocks may name it first.
pub(crate) fn is_written_signed(number: u16) -> bool
    ensures { result ≡ written_signed number }
{
    matches!(number, 0x00..=0x0E | 0x86..=0x87 | 0x92)
}
