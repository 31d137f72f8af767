//! Cases drawn from a fixed start: 200 a group, the first ten whole, and a digest of all results.
use crate::cases::{Case, made_of, print_case};
use crate::random::Random;
use crate::results::{block, diversified, message_tag, session, tag};
use cipher::Cipher;
use std::convert::AsSlice;
use std::io;
use tdes::three_key::ThreeKeyDes;
use tdes::two_key::TwoKeyDes;
use xtea::Xtea;

const CASES: usize = 200;

const SHOWN: usize = 10;

/// How many bytes the inputs of a case have beside its key: the first one, and the second, if there is one.
type Sizes = (usize, Option<usize>);

/// A block.
fn sizes_of_a_block(_: usize) -> Sizes {
    (8, None)
}

/// A challenge, or an ID.
fn sizes_of_two_blocks(_: usize) -> Sizes {
    (16, None)
}

/// The start of a tag, and a text of up to eight groups.
fn sizes_of_a_tag(i: usize) -> Sizes {
    (8, Some(i % 9 * 8))
}

/// A message of up to forty bytes.
fn sizes_of_a_message(i: usize) -> Sizes {
    (i % 41, None)
}

/// FNV-1a over 64 bits, carried on over more bytes.
fn digest_after(digest: u64, bytes: &[u8]) -> u64 {
    bytes.iter().fold(digest, |so_far, byte| {
        (so_far ^ u64::from(*byte)).wrapping_mul(0x100_0000_01b3)
    })
}

/// The cases of a group: the sizes of case i, and what the library makes of a case.
fn print_group<C, S, R, M>(
    rt: &HostRuntime,
    name: &str,
    number: u8,
    cipher: &C,
    sizes: S,
    make: M,
) -> io::Result<()>
where
    C: Cipher,
    S: Fn(usize) -> Sizes,
    R: AsSlice<u8> + Drop,
    M: Fn(&C, Case) -> Option<R>,
    requires sizes_anywhere { S.IsAlwaysCallable sizes }
    requires made_anywhere { M.IsAlwaysCallable make }
{
    let heap = rt.alloc();
    let mut random = Random::of_group(number);
    let mut digest: u64 = 0xcbf2_9ce4_8422_2325;
    for i in 0..CASES {
        let (first, second) = sizes(i);
        let key = random.bytes(heap, C::KEY_LEN)?;
        let first = random.bytes(heap, first)?;
        let second = second.map(|size| random.bytes(heap, size)).transpose()?;
        let case = Case {
            key: &key,
            first: &first,
            second: second.as_deref(),
        };
        let made = made_of(make(cipher, case))?;
        digest = digest_after(digest, made.as_slice());
        if i < SHOWN {
            print!(rt; "{name}")?;
            print_case(rt, case, made.as_slice())?;
        }
    }
    println!(rt; "{name} {CASES} {digest:016X}")
}

/// A group's number gives the start of its generator.
pub fn print(rt: &HostRuntime) -> io::Result<()> {
    print_group(rt, "tdes2", 1, &TwoKeyDes, sizes_of_a_block, block)?;
    print_group(rt, "tdes3", 2, &ThreeKeyDes, sizes_of_a_block, block)?;
    print_group(rt, "xtea", 3, &Xtea, sizes_of_a_block, block)?;
    print_group(rt, "chain-tdes2", 4, &TwoKeyDes, sizes_of_a_tag, tag)?;
    print_group(rt, "chain-tdes3", 5, &ThreeKeyDes, sizes_of_a_tag, tag)?;
    print_group(rt, "chain-xtea", 6, &Xtea, sizes_of_a_tag, tag)?;
    print_group(
        rt,
        "session-tdes2",
        7,
        &TwoKeyDes,
        sizes_of_two_blocks,
        session,
    )?;
    print_group(rt, "session-xtea", 8, &Xtea, sizes_of_two_blocks, session)?;
    print_group(
        rt,
        "cmac-tdes2",
        9,
        &TwoKeyDes,
        sizes_of_a_message,
        message_tag,
    )?;
    print_group(
        rt,
        "cmac-tdes3",
        10,
        &ThreeKeyDes,
        sizes_of_a_message,
        message_tag,
    )?;
    print_group(rt, "cmac-xtea", 11, &Xtea, sizes_of_a_message, message_tag)?;
    print_group(
        rt,
        "diversified-tdes2",
        12,
        &TwoKeyDes,
        sizes_of_two_blocks,
        diversified,
    )?;
    print_group(
        rt,
        "diversified-tdes3",
        13,
        &ThreeKeyDes,
        sizes_of_two_blocks,
        diversified,
    )?;
    print_group(
        rt,
        "diversified-xtea",
        14,
        &Xtea,
        sizes_of_two_blocks,
        diversified,
    )
}
