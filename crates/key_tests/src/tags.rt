//! Tags and keys whose values are known from outside, or from what they mean.
use cipher::Cipher;
use cmac::message::cmac;
use mac::chain::tag_under;
use mac::reversal::turn_round;
use mac::session::session_keys;
use std::test::Fail;
use tdes::three_key::ThreeKeyDes;
use tdes::two_key::TwoKeyDes;

#[test]
fn bytes_turn_round(rt: HostRuntime) {
    assert_eq!(rt;
        turn_round([1, 2, 3, 4, 5, 6, 7, 8]),
        [8, 7, 6, 5, 4, 3, 2, 1]
    );
}

#[test]
fn a_text_of_no_groups_meets_no_cipher(rt: HostRuntime) -> Result<(), Fail> {
    let mut sheet = [7u64; 16];
    let start = [1, 2, 3, 4, 5, 6, 7, 8];
    let Ok(tag) = tag_under(&TwoKeyDes, &[3; 16], start, &[], &mut sheet) else {
        return Err(Fail::new("16 bytes make no key"));
    };
    assert_eq!(rt; tag, [8, 7, 6, 5, 4, 3, 2, 1]);
    assert_eq!(rt; sheet, [0; 16]);
    Ok(())
}

/// NIST SP 800-38B's example of an empty message under three keys.
#[test]
fn an_empty_message_has_a_tag(rt: HostRuntime) -> Result<(), Fail> {
    let mut sheet = [7u64; 16];
    let bytes =
        b"\x8a\xa8\x3b\xf8\xcb\xda\x10\x62\x0b\xc1\xbf\x19\xfb\xb6\xcd\x58\xbc\x31\x3d\x4a\x37\x1c\xa8\xb5";
    let Ok(key) = ThreeKeyDes.key(bytes, &mut sheet) else {
        return Err(Fail::new("24 bytes make no key"));
    };
    let tag = cmac(&ThreeKeyDes, &key, &[], &mut sheet);
    assert_eq!(rt; u64::from_be_bytes(tag), 0xb7a688e122ffaf95);
    assert_eq!(rt; sheet, [0; 16]);
    Ok(())
}

/// The tag that the card's manual prints for block 82h read once, in a session under a card key of FFh.
#[test]
fn the_manuals_session_gives_its_tag(rt: HostRuntime) -> Result<(), Fail> {
    let mut sheet = [7u64; 16];
    let challenge = 0xf1875a01f9b29e4c06a1cec4165585cf_u128.to_be_bytes();
    let Ok(keys) = session_keys(&TwoKeyDes, &[0xff; 16], &challenge, &mut sheet) else {
        return Err(Fail::new("16 bytes make no key"));
    };
    let mut key = [0; 16];
    key[..8].copy_from_slice(&keys.first);
    key[8..].copy_from_slice(&keys.second);
    let start = turn_round(0xf1875a01f9b29e4c_u64.to_be_bytes());
    let text = [
        0x82009100ffffffff_u64.to_be_bytes(),
        0x299ffa53ab75876e_u64.to_be_bytes(),
        0x574e102a9416bc8e_u64.to_be_bytes(),
    ];
    let Ok(tag) = tag_under(&TwoKeyDes, &key, start, &text, &mut sheet) else {
        return Err(Fail::new("16 bytes make no key"));
    };
    assert_eq!(rt; u64::from_be_bytes(tag), 0xeef4b0bb5e3b6c8b);
    Ok(())
}
