//! A key of a wrong length is refused with number 8, and the work sheet is clear after that too.
use cipher::{Cipher, KeyError};
use cmac::diversified::diversified_key;
use mac::chain::tag_under;
use mac::session::session_keys;
use std::process::Abort;
use tdes::three_key::ThreeKeyDes;
use tdes::two_key::TwoKeyDes;
use xtea::Xtea;

/// Checks that a call refuses its key and leaves the sheet clear.
fn refuses<T: Drop, F: FnOnce(&mut [u64; 16]) -> Result<T, KeyError>>(rt: &impl Abort, call: F)
    requires { F.IsAlwaysCallable call }
{
    let mut sheet = [7; 16];
    assert!(rt; matches!(call(&mut sheet), Err(KeyError::WrongLength)));
    assert_eq!(rt; sheet, [0; 16]);
}

#[test]
fn wrong_lengths_are_refused(rt: HostRuntime) {
    refuses(&rt, |sheet| TwoKeyDes.key(&[1; 15], sheet));
    refuses(&rt, |sheet| TwoKeyDes.key(&[1; 24], sheet));
    refuses(&rt, |sheet| ThreeKeyDes.key(&[1; 16], sheet));
    refuses(&rt, |sheet| ThreeKeyDes.key(&[1; 25], sheet));
    refuses(&rt, |sheet| Xtea.key(&[], sheet));
    refuses(&rt, |sheet| Xtea.key(&[1; 17], sheet));
}

#[test]
fn calls_above_refuse_and_clear(rt: HostRuntime) {
    refuses(&rt, |sheet| {
        tag_under(&TwoKeyDes, &[1; 8], [0; 8], &[[0; 8]], sheet)
    });
    refuses(&rt, |sheet| {
        session_keys(&ThreeKeyDes, &[1; 16], &[2; 16], sheet)
    });
    refuses(&rt, |sheet| {
        diversified_key(&ThreeKeyDes, &[1; 16], &[2; 16], sheet)
    });
}
