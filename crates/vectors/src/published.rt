//! Cases that standards and the card's manual print.
use crate::cases::{Case, made_of, print_case};
use crate::results::{block, message_tag, session, tag};
use cipher::Cipher;
use std::io;
use tdes::three_key::ThreeKeyDes;
use tdes::two_key::TwoKeyDes;
use xtea::Xtea;

/// One case, and what was made of it.
fn print_one<const N: usize>(
    rt: &HostRuntime,
    name: &str,
    case: Case,
    made: Option<[u8; N]>,
) -> io::Result<()> {
    let made = made_of(made)?;
    print!(rt; "published {name}")?;
    print_case(rt, case, &made)
}

/// Several inputs under one key, each made into something by the library.
fn print_all<'a, C: Cipher, M: Fn(&C, Case) -> Option<[u8; 8]>>(
    rt: &HostRuntime,
    name: &str,
    cipher: &C,
    key: &'a [u8],
    inputs: &'a [&'a [u8]],
    make: M,
) -> io::Result<()>
    requires { M.IsAlwaysCallable make }
{
    for &first in inputs {
        let case = Case {
            key,
            first,
            second: None,
        };
        print_one(rt, name, case, make(cipher, case))?;
    }
    Ok(())
}

/// NIST SP 800-67: a text of three blocks under three keys.
fn print_triple_des(rt: &HostRuntime) -> io::Result<()> {
    print_all(
        rt,
        "tdes3",
        &ThreeKeyDes,
        b"\x01\x23\x45\x67\x89\xab\xcd\xef\x23\x45\x67\x89\xab\xcd\xef\x01\x45\x67\x89\xab\xcd\xef\x01\x23",
        &[&b"The qufc"[..], &b"k brown "[..], &b"fox jump"[..]],
        block,
    )
}

fn print_xtea(rt: &HostRuntime) -> io::Result<()> {
    print_all(
        rt,
        "xtea",
        &Xtea,
        b"\x00\x01\x02\x03\x04\x05\x06\x07\x08\x09\x0a\x0b\x0c\x0d\x0e\x0f",
        &[
            &b"ABCDEFGH"[..],
            &b"AAAAAAAA"[..],
            &b"\x5a\x5b\x6e\x27\x89\x48\xd7\x7f"[..],
        ],
        block,
    )?;
    print_all(
        rt,
        "xtea",
        &Xtea,
        b"\x00\x00\x00\x00\x00\x00\x00\x00\x00\x00\x00\x00\x00\x00\x00\x00",
        &[
            &b"ABCDEFGH"[..],
            &b"AAAAAAAA"[..],
            &b"\x70\xe1\x22\x5d\x6e\x4e\x76\x55"[..],
        ],
        block,
    )
}

/// NIST SP 800-38B: the first 0, 8, 20 and 32 bytes of a message, under three keys and under two.
fn print_cmacs(rt: &HostRuntime) -> io::Result<()> {
    let message =
        b"\x6b\xc1\xbe\xe2\x2e\x40\x9f\x96\xe9\x3d\x7e\x11\x73\x93\x17\x2a\xae\x2d\x8a\x57\x1e\x03\xac\x9c\x9e\xb7\x6f\xac\x45\xaf\x8e\x51";
    let parts = [&message[..0], &message[..8], &message[..20], &message[..32]];
    print_all(
        rt,
        "cmac-tdes3",
        &ThreeKeyDes,
        b"\x8a\xa8\x3b\xf8\xcb\xda\x10\x62\x0b\xc1\xbf\x19\xfb\xb6\xcd\x58\xbc\x31\x3d\x4a\x37\x1c\xa8\xb5",
        &parts,
        message_tag,
    )?;
    print_all(
        rt,
        "cmac-tdes2",
        &TwoKeyDes,
        b"\x4c\xf1\x51\x34\xa2\x85\x0d\xd5\x8a\x3d\x10\xba\x80\x57\x0d\x38",
        &parts,
        message_tag,
    )
}

/// A tag over block 82h of the manual's MAC test: its key are the session keys, its start the challenge's front half
/// turned round, and its text the number list and then the block for each time that it is read.
fn print_tag(rt: &HostRuntime, text: &[u8]) -> io::Result<()> {
    let case = Case {
        key: b"\xba\x10\x6a\xdd\x88\xc9\x22\xff\x71\x8e\x4b\x50\xec\x4a\xb2\x8e",
        first: b"\x4c\x9e\xb2\xf9\x01\x5a\x87\xf1",
        second: Some(text),
    };
    print_one(rt, "tag-tdes2", case, tag(&TwoKeyDes, case))
}

/// The manual's MAC test: the session keys of a card key and a challenge, and tags over one, two and three blocks.
fn print_session(rt: &HostRuntime) -> io::Result<()> {
    let case = Case {
        key: b"\xff\xff\xff\xff\xff\xff\xff\xff\xff\xff\xff\xff\xff\xff\xff\xff",
        first: b"\xf1\x87\x5a\x01\xf9\xb2\x9e\x4c\x06\xa1\xce\xc4\x16\x55\x85\xcf",
        second: None,
    };
    print_one(rt, "session-tdes2", case, session(&TwoKeyDes, case))?;
    print_tag(
        rt,
        b"\x82\x00\x91\x00\xff\xff\xff\xff\x29\x9f\xfa\x53\xab\x75\x87\x6e\x57\x4e\x10\x2a\x94\x16\xbc\x8e",
    )?;
    print_tag(
        rt,
        b"\x82\x00\x82\x00\x91\x00\xff\xff\x29\x9f\xfa\x53\xab\x75\x87\x6e\x57\x4e\x10\x2a\x94\x16\xbc\x8e\x29\x9f\xfa\x53\xab\x75\x87\x6e\x57\x4e\x10\x2a\x94\x16\xbc\x8e",
    )?;
    print_tag(
        rt,
        b"\x82\x00\x82\x00\x82\x00\x91\x00\x29\x9f\xfa\x53\xab\x75\x87\x6e\x57\x4e\x10\x2a\x94\x16\xbc\x8e\x29\x9f\xfa\x53\xab\x75\x87\x6e\x57\x4e\x10\x2a\x94\x16\xbc\x8e\x29\x9f\xfa\x53\xab\x75\x87\x6e\x57\x4e\x10\x2a\x94\x16\xbc\x8e",
    )
}

pub fn print(rt: &HostRuntime) -> io::Result<()> {
    print_triple_des(rt)?;
    print_xtea(rt)?;
    print_cmacs(rt)?;
    print_session(rt)
}
