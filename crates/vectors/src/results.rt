//! What the library makes of a case, by any cipher; nothing where an input has a wrong length.
use crate::cases::Case;
use byte_arrays::{copied, join};
use cipher::Cipher;
use cmac::diversified::diversified_key;
use cmac::message::cmac;
use mac::chain::tag_under;
use mac::session::session_keys;

/// A block under the key.
pub fn block<C: Cipher>(cipher: &C, case: Case) -> Option<[u8; 8]> {
    let mut sheet = [0; 16];
    let key = cipher.key(case.key, &mut sheet).ok()?;
    Some(cipher.encrypt(&key, copied(case.first)?, &mut sheet))
}

/// A tag from a start, over a text.
pub fn tag<C: Cipher>(cipher: &C, case: Case) -> Option<[u8; 8]> {
    let (text, _) = case.second?.as_chunks::<8>();
    tag_under(cipher, case.key, copied(case.first)?, text, &mut [0; 16]).ok()
}

/// Session keys of a card key and a challenge.
pub fn session<C: Cipher>(cipher: &C, case: Case) -> Option<[u8; 16]> {
    let card_key = copied(case.key)?;
    let keys = session_keys(cipher, &card_key, &copied(case.first)?, &mut [0; 16]).ok()?;
    Some(join(&keys.first, &keys.second))
}

/// CMAC of a message.
pub fn message_tag<C: Cipher>(cipher: &C, case: Case) -> Option<[u8; 8]> {
    let mut sheet = [0; 16];
    let key = cipher.key(case.key, &mut sheet).ok()?;
    Some(cmac(cipher, &key, case.first, &mut sheet))
}

/// The diversified key of an ID.
pub fn diversified<C: Cipher>(cipher: &C, case: Case) -> Option<[u8; 16]> {
    diversified_key(cipher, case.key, &copied(case.first)?, &mut [0; 16]).ok()
}
