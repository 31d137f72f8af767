//! Both kinds of memory on examples. What is the same for both is checked by one helper, for every block memory.
use memory::BlockMemory;
use memory::cell::{Cell, MemoryError, Outcome};
use memory::checked::Checked;
use memory::plain::Plain;
use std::alloc::{AllocError, Global};
use std::process::Abort;
use std::test::Fail;

/// Forty bytes of zero: two good cells and a part of a third, in both kinds.
fn zeros(heap: Global) -> Result<Vec<u8>, AllocError> {
    vec![in heap; 0; 40]
}

/// What a read answers of a good cell with sixteen bytes of one value.
fn good(value: u8) -> Result<Cell, MemoryError> {
    Ok(Cell::Good([value; 16]))
}

fn check_reads_back<M: BlockMemory>(rt: &impl Abort, kind: &str, memory: &mut M) {
    assert!(rt; memory.write(1, &[7; 16]).is_ok(), "{kind}");
    assert_eq!(rt; memory.read(0), good(0), "{kind}");
    assert_eq!(rt; memory.read(1), good(7), "{kind}");
}

// Each test calls its check twice: a closure cannot take memories of both types.

#[test]
fn a_written_cell_reads_back(rt: HostRuntime) -> Result<(), Fail> {
    check_reads_back(
        &rt,
        "plain",
        &mut Plain {
            bytes: zeros(rt.alloc())?,
        },
    );
    check_reads_back(
        &rt,
        "checked",
        &mut Checked {
            bytes: zeros(rt.alloc())?,
        },
    );
    Ok(())
}

fn check_outcomes<M: BlockMemory>(rt: &impl Abort, kind: &str, memory: &mut M) {
    assert!(rt;
        memory.cut_write(1, &[7; 16], Outcome::New).is_ok(),
        "{kind}"
    );
    assert_eq!(rt; memory.read(1), good(7), "{kind}");
    assert!(rt;
        memory.cut_write(1, &[9; 16], Outcome::Old).is_ok(),
        "{kind}"
    );
    assert_eq!(rt; memory.read(1), good(7), "{kind}");
    assert!(rt;
        memory.cut_write(1, &[9; 16], Outcome::Torn).is_ok(),
        "{kind}"
    );
    assert_eq!(rt; memory.read(1), Ok(Cell::Torn), "{kind}");
    assert_eq!(rt; memory.read(0), good(0), "{kind}");
}

#[test]
fn a_cut_write_leaves_each_outcome(rt: HostRuntime) -> Result<(), Fail> {
    check_outcomes(
        &rt,
        "plain",
        &mut Plain {
            bytes: zeros(rt.alloc())?,
        },
    );
    check_outcomes(
        &rt,
        "checked",
        &mut Checked {
            bytes: zeros(rt.alloc())?,
        },
    );
    Ok(())
}

/// The part cell does not count, and every call on it is turned down.
fn check_turned_down<M: BlockMemory>(rt: &impl Abort, kind: &str, memory: &mut M) {
    assert_eq!(rt; memory.count(), 2, "{kind}");
    assert!(rt; memory.read(2).is_err(), "{kind}");
    assert!(rt; memory.write(2, &[7; 16]).is_err(), "{kind}");
    assert!(rt;
        memory.cut_write(2, &[7; 16], Outcome::Torn).is_err(),
        "{kind}"
    );
}

#[test]
fn turned_down_calls_change_no_byte(rt: HostRuntime) -> Result<(), Fail> {
    let mut plain = Plain {
        bytes: zeros(rt.alloc())?,
    };
    check_turned_down(&rt, "plain", &mut plain);
    assert_eq!(rt; plain.bytes, zeros(rt.alloc())?, "plain");
    let mut checked = Checked {
        bytes: zeros(rt.alloc())?,
    };
    check_turned_down(&rt, "checked", &mut checked);
    assert_eq!(rt; checked.bytes, zeros(rt.alloc())?, "checked");
    Ok(())
}

/// The two bytes past a block are its CRC, high byte first.
#[test]
fn a_checked_cell_ends_with_its_crc(rt: HostRuntime) -> Result<(), Fail> {
    let mut memory = Checked {
        bytes: zeros(rt.alloc())?,
    };
    assert!(rt; memory.write(0, &[7; 16]).is_ok());
    let bytes = memory.bytes;
    assert!(rt; bytes.len() == 40);
    assert_eq!(rt;
        (bytes[15], bytes[16], bytes[17], bytes[18]),
        (7, 0x6A, 0xA5, 0)
    );
    Ok(())
}
