use crate::calls::{Bytes, PAGE, in_memory, write_all};
use rr_disk::MemoryDisk;
use rr_pages::{Damage, ReadChain};
use rr_reading::{Contents, Fault, read_file};
use std::alloc::Global;

// Room for a file of 522 pages, and for the calls of a test.
const ROOM: usize = 1 << 22;

// A root: its gate, number 1, its directory on page 514, half 0, first record 1, 522 pages, version 1.
const ROOT: &[u8] = b"\xa5\0\0\0\0\0\0\0\x01\0\0\0\0\0\0\x02\x02\0\0\0\0\0\0\0\0\x01\
\0\0\0\0\0\0\x02\x0a\0\x01";

// A directory: four texts on pages 515 to 518; one table of 2 kept commands on page 519; and two snapshots of it, behind
// the first command on page 520 and behind both on page 521.
const DIRECTORY: &[u8] = b"\0\0\0\0\0\0\x02\x03\0\0\0\x05\0\0\0\0\0\0\x02\x04\0\0\0\x06\
\0\0\0\0\0\0\x02\x05\0\0\0\x05\0\0\0\0\0\0\x02\x06\0\0\0\x05\0\x01\
\x02g1\0\0\0\0\0\0\0\x02\0\0\0\0\0\0\0\x02\0\0\0\0\0\0\x02\x07\0\0\0\x11\0\x02\
\0\0\0\0\0\x01\0\0\0\0\0\0\x02\x08\0\0\0\x05\0\0\0\0\0\x02\0\0\0\0\0\0\x02\x09\0\0\0\x04";

// A right file without a record. Each page ends its chain, and says how many of its bytes are used.
static RIGHT: [Bytes; 10] = [
    (0, ROOT),
    (4096 * 514 + 8, b"\0\x77"),
    (4096 * 514 + 10, DIRECTORY),
    (4096 * 515 + 8, b"\0\x05chart"),
    (4096 * 516 + 8, b"\0\x06roster"),
    (4096 * 517 + 8, b"\0\x05tiles"),
    (4096 * 518 + 8, b"\0\x05board"),
    (4096 * 519 + 8, b"\0\x11\0\x08open a b\0\x05buy a"),
    (4096 * 520 + 8, b"\0\x05early"),
    (4096 * 521 + 8, b"\0\x04late"),
];

// The calls below have no contracts, so that what a test does costs its proof little.

// A right file that is altered.
fn file(alloc: Global, alterations: &[Bytes]) -> Result<MemoryDisk, rr_disk::Fault> {
    let bytes = vec![in alloc; 0u8; 522 * PAGE]?;
    let mut disk = in_memory(alloc, ROOM, &bytes)?;
    write_all(&mut disk, &RIGHT)?;
    write_all(&mut disk, alterations)?;
    Ok(disk)
}

fn read(alloc: Global, alterations: &[Bytes]) -> Result<Contents, Fault> {
    match file(alloc, alterations) {
        Ok(disk) => {
            let mut disk = disk;
            read_file(alloc, &mut disk)
        }
        Err(_) => Err(Fault::OutOfMemory),
    }
}

// Whether these are the two snapshots of a right file, each with its bytes.
fn are_both(snapshots: &[ReadChain]) -> bool {
    match snapshots {
        [early, late] => {
            early.bytes.as_slice() == b"early".as_slice()
                && late.bytes.as_slice() == b"late".as_slice()
        }
        _ => false,
    }
}

// How many snapshots a file tells, whether they are both, and whether the pages 520 and 521 are reached.
fn told(alloc: Global, alterations: &[Bytes]) -> Result<(usize, bool, [bool; 2]), Fault> {
    let has = read(alloc, alterations)?;
    let reached = [has.reached.has(520), has.reached.has(521)];
    Ok((has.snapshots.len(), are_both(&has.snapshots), reached))
}

// What is damaged of an altered file.
fn damage(alloc: Global, alterations: &[Bytes]) -> Option<Damage> {
    match told(alloc, alterations) {
        Err(Fault::Damaged(damage)) => Some(damage),
        _ => None,
    }
}

// The directory may end behind its tables, and has no snapshots then.
#[test]
fn snapshots_are_told_with_their_bytes(rt: HostRuntime) {
    let alloc = rt.alloc();
    let both = told(alloc, &[]).expect(&rt, "a right file");
    assert!(rt; both == (2, true, [true, true]));
    let none = told(alloc, &[(4096 * 514 + 8, b"\0\x51")]).expect(&rt, "a right file");
    assert!(rt; none == (0, false, [false, false]));
}

// The second snapshot stands outside, on the first one's page, and is a byte longer than stated; and its page has more
// used bytes than room.
#[test]
fn snapshots_are_judged_as_chains(rt: HostRuntime) {
    let alloc = rt.alloc();
    let told = [
        damage(alloc, &[(4096 * 514 + 10 + 113, b"\x02\x0a")]),
        damage(alloc, &[(4096 * 514 + 10 + 113, b"\x02\x08")]),
        damage(alloc, &[(4096 * 521 + 8, b"\x0f\xf7")]),
        damage(alloc, &[(4096 * 514 + 10 + 118, b"\x03")]),
    ];
    let wanted = [
        Some(Damage::PageOutside),
        Some(Damage::PageTwice),
        Some(Damage::UsedBytes),
        Some(Damage::Form),
    ];
    assert!(rt; told == wanted);
}
