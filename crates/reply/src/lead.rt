//! The group of block numbers that leads the text of MAC_A.
ghost use Rattle.reply.specs.Texts.{lead_of, number_pair};
ghost use Rattle.std.specs.Prelude.{◌≡◌};

/// A number of the list followed by 00h, or FFh FFh past its end.
fn number_pair(numbers: &[u16], i: usize) -> [u8; 2]
    ensures { result ≡ number_pair numbers.now i }
{
    let Some(number) = numbers.get(i) else {
        return [0xFF, 0xFF];
    };
    let [low, _] = number.to_le_bytes();
    [low, 0x00]
}

/// The numbers of a list, filled to eight bytes.
pub(crate) fn lead_group(numbers: &[u16]) -> [u8; 8]
    ensures { result ≡ lead_of numbers.now }
{
    // As pairs made by `from_fn`, flattened and copied back into an array, it would be no shorter.
    let [a, b] = number_pair(numbers, 0);
    let [c, d] = number_pair(numbers, 1);
    let [e, f] = number_pair(numbers, 2);
    let [g, h] = number_pair(numbers, 3);
    [a, b, c, d, e, f, g, h]
}
