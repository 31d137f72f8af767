//! What a read shows: blocks and tags.
ghost use Rattle.blocklist.specs.Elements.{numbers_in};
ghost use Rattle.card.specs.Reactions.{shown_text};
ghost use Rattle.card.specs.Sources.{reads_from};
ghost use Rattle.mac.specs.Chain.{tagged};
ghost use Rattle.reply.specs.Texts.{block_sent, tag_block, text_in, text_of};
ghost use Rattle.std.specs.Prelude.{◌≡◌, replicate};

use crate::card::Card;
use crate::signature::{Tagging, read_key};
use blocklist::Blocks;
use blocks::CELLS;
use byte_arrays::join;
use cipher::Cipher;
use decision::View;
use hopper::{read_block, view};
use memory::cell::Cell;
use reply::Text;
use volatile::{Session, Volatile};

/// What the blocks of a hopper are read from.
#[derive(Clone, Copy)]
pub(crate) struct Source<'a> {
    pub cells: &'a [Cell; CELLS],
    pub view: &'a View,
    pub session: &'a Session,
}

/// A tag as a block.
fn tag_block(tag: &[u8; 8]) -> [u8; 16]
    ensures { result ≡ tag_block tag.now }
{
    join(tag, &[0; 8])
}

/// A block as it is sent after a text.
fn block_sent<C: Cipher>(
    tagging: &Tagging<C>,
    source: Source,
    text: &Text,
    block: u16,
    sheet: &mut [u64; 16],
) -> [u8; 16]
    ensures value { result ≡ block_sent (reads_from source.entry) (tagged (C.enciphered (C.key_bytes tagging.now.key)) tagging.now.start) (text_in text.now) block }
    ensures wiped { sheet.new ≡ replicate 16 0 }
{
    *sheet = [0; 16];
    match block {
        0x81 => tag_block(&tagging.tag(text.sent(), sheet)),
        0x91 => tag_block(&tagging.tag(text.led(), sheet)),
        _ => read_block(source.cells, source.view, source.session, block),
    }
}

/// The text of a read of these blocks, all of them sent.
fn text_shown<C: Cipher>(
    tagging: &Tagging<C>,
    source: Source,
    blocks: &Blocks,
    sheet: &mut [u64; 16],
) -> Text
    ensures value { text_in result ≡ text_of (reads_from source.entry) (tagged (C.enciphered (C.key_bytes tagging.now.key)) tagging.now.start) (numbers_in blocks.now) }
    ensures wiped { sheet.new ≡ replicate 16 0 }
{
    *sheet = [0; 16];
    let numbers = blocks.as_slice();
    let mut text = Text::led_by(numbers);
    for number in numbers {
        let block = block_sent(tagging, source, &text, *number, sheet);
        text.add(&block);
    }
    text
}

impl<C: Cipher> Card<'_, C> {
    /// The text of a read of these blocks, under the keys of the session.
    pub(crate) fn text(&self, volatile: &Volatile, blocks: &Blocks, sheet: &mut [u64; 16]) -> Text
        ensures value { text_in result ≡ shown_text C.enciphered self.now.cells.now volatile.now (numbers_in blocks.now) }
        ensures wiped { sheet.new ≡ replicate 16 0 }
    {
        let tagging = self.tagging(volatile, &read_key(&volatile.keys), sheet);
        let source = Source {
            cells: self.cells,
            view: &view(self.cells, volatile),
            session: &volatile.session,
        };
        text_shown(&tagging, source, blocks, sheet)
    }
}
