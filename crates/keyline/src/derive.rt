//! The diversified key of an ID, under three-key triple DES.
ghost use Rattle.std.specs.Prelude.{◌≡◌};
ghost use Rattle.keyline.specs.Lines.{card_key};

use cmac::diversified::diversified_key;
use tdes::three_key::ThreeKeyDes;

pub fn derive(master: &[u8; 24], id: &[u8; 16]) -> [u8; 16]
    ensures { result ≡ card_key master.now id.now }
{
    let mut sheet = [0; 16];
    // 24 bytes are a key
    diversified_key(&ThreeKeyDes, master, id, &mut sheet).unwrap()
}
