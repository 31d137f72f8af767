//! The text of a reply: begun with the numbers of the list, then one block after the other.
ghost use Rattle.std.specs.Prelude.{◌≡◌, ◌+◌, ◌≤◌, [], ◌∷◌, length, drop, if◌then◌else◌, nat_le};
ghost use Rattle.reply.specs.Texts.{lead_of, text_grown, text_in};

use crate::lead::lead_group;
use crate::text::Text;
use bounded::Bounded;
use byte_arrays::halves;

impl Text {
    /// The text of a read of these blocks, before the first of them.
    pub fn led_by(numbers: &[u16]) -> Text
        ensures text { text_in result ≡ lead_of numbers.now ∷ [] }
        ensures count { length (text_in result) ≡ 1 }
    {
        let mut held = Bounded::new();
        held.push(lead_group(numbers));
        Text { held }
    }

    /// One block more; a fifth is left out.
    pub fn add(&mut self, block: &[u8; 16])
        ensures text { text_in self.new ≡ text_grown self.old block.now }
        ensures count { length (text_in self.new) ≡ (if nat_le (length (text_in self.old)) 7 then length (text_in self.old) + 2 else length (text_in self.old)) }
    {
        let (front, back) = halves(block);
        self.held.extend_from_slice(&[front, back]);
    }

    /// The numbers and the blocks: the text of MAC_A.
    pub fn led(&self) -> &[[u8; 8]]
        ensures text { result.now ≡ text_in self.now }
        ensures few { length result.now ≤ 9 }
    {
        self.held.as_slice()
    }

    /// The blocks alone: the text of MAC.
    pub fn sent(&self) -> &[[u8; 8]]
        ensures text { result.now ≡ drop 1 (text_in self.now) }
        ensures few { length result.now ≤ 8 }
    {
        match self.led() {
            [_, sent @ ..] => sent,
            [] => &[],
        }
    }
}
