use crate::files::{FAR, FIRST, Found, NEAR, failing_after, found, new_file, open, write};
use crate::tables::AnyLine;
use rr_disk::{Disk, MemoryDisk};
use rr_log::opening::laws::damaged_records_are_refused;
use rr_reading::Fault;
use rr_reading::worlds::Worlds;
use std::alloc::Global;
use std::test::Fail;

// The front of a record of number 1 or 2 without a byte, which no record may have.
const EMPTY: &[u8] = b"\xa5\0\0\0\0\0\0\0\x01\0\0\0\0";

const OTHER_EMPTY: &[u8] = b"\xa5\0\0\0\0\0\0\0\x02\0\0\0\0";

// Whether a new file with these bytes at this place has a damaged record, and what an opening finds in it.
fn opened_with(alloc: Global, at: u64, bytes: &[u8]) -> Result<(bool, Found), Fail> {
    let mut disk = new_file(alloc)?;
    write(&mut disk, at, bytes)?;
    let opened = open(alloc, &mut disk)?;
    Ok((opened.is_damaged(), found(&opened)))
}

// The first row that isn't as it is to be. Only a record of the expected number is damaged, in either half.
fn unlike(alloc: Global) -> Result<Option<u8>, Fail> {
    let rows = [
        (0, NEAR, b"".as_slice(), false, (1, 1, 0, 0, None)),
        (1, NEAR, FIRST, false, (1, 2, 1, 0, None)),
        (2, FAR, FIRST, false, (1, 2, 0, 1, Some(1))),
        (3, NEAR, EMPTY, true, (1, 1, 0, 0, None)),
        (4, FAR, EMPTY, true, (1, 1, 0, 0, None)),
        (5, NEAR, OTHER_EMPTY, false, (1, 1, 0, 0, None)),
    ];
    for (row, at, bytes, is_damaged, found) in rows {
        if opened_with(alloc, at, bytes)? != (is_damaged, found) {
            return Ok(Some(row));
        }
    }
    Ok(None)
}

#[test]
fn files_are_opened_with_and_without_records(rt: HostRuntime) -> Result<(), Fail> {
    damaged_records_are_refused::<Worlds<AnyLine>>();
    let row = unlike(rt.alloc())?;
    assert_eq!(rt; row, None);
    Ok(())
}

// Why a new file isn't opened whose device fails behind so many calls, and how many writes and syncs were made.
fn failed(alloc: Global, calls: u64) -> Result<(Option<Fault>, u64, u64), Fail> {
    let mut disk = failing_after(new_file(alloc)?, calls);
    let fault = open(alloc, &mut disk).err();
    Ok((fault, disk.writes(), disk.syncs()))
}

fn empty_fault(alloc: Global) -> Result<Option<Fault>, Fail> {
    let mut disk = MemoryDisk::new(alloc, 4096)?;
    Ok(open(alloc, &mut disk).err())
}

// The first call is the sync.
#[test]
fn an_opening_tells_why_it_fails(rt: HostRuntime) -> Result<(), Fail> {
    let device = Some(Fault::Disk(rr_disk::Fault::DeviceFailed));
    assert!(rt; failed(rt.alloc(), 0)? == (device, 0, 1));
    assert!(rt; failed(rt.alloc(), 1)? == (device, 0, 1));
    assert!(rt; empty_fault(rt.alloc())? == Some(Fault::NotAStore));
    Ok(())
}
