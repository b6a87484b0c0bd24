use crate::calls::{Bytes, in_memory, written};
use rr_disk::{Disk, FaultyDisk, MemoryDisk};
use rr_pages::journal::RunEnd;
use rr_pages::{Damage, FollowedChain};
use rr_reading::laws::files_have_one_answer;
use rr_reading::lending::Commands;
use rr_reading::{Contents, Fault, read_file};
use std::alloc::Global;

const PAGE: usize = 4096;

// Room for a file of 520 pages, and for the calls of a test.
const ROOM: usize = 1 << 22;

// A root: its gate, number 1, its directory on page 514, half 0, first record 1, 520 pages, version 1.
const ROOT: &[u8] = b"\xa5\0\0\0\0\0\0\0\x01\0\0\0\0\0\0\x02\x02\0\0\0\0\0\0\0\0\x01\
\0\0\0\0\0\0\x02\x08\0\x01";

// A directory: four texts on pages 515 to 518, and one table of 2 kept commands on page 519.
const DIRECTORY: &[u8] = b"\0\0\0\0\0\0\x02\x03\0\0\0\x05\0\0\0\0\0\0\x02\x04\0\0\0\x06\
\0\0\0\0\0\0\x02\x05\0\0\0\x05\0\0\0\0\0\0\x02\x06\0\0\0\x05\0\x01\
\x02g1\0\0\0\0\0\0\0\x02\0\0\0\0\0\0\0\x02\0\0\0\0\0\0\x02\x07\0\0\0\x11";

// The table's commands, each with the length of its words before it.
const KEPT: &[u8] = b"\0\x08open a b\0\x05buy a";

// A right file without a record. Each page ends its chain, and says how many of its bytes are used.
const RIGHT: [Bytes; 9] = [
    (0, ROOT),
    (4096 * 514 + 8, b"\0\x51"),
    (4096 * 514 + 10, DIRECTORY),
    (4096 * 515 + 8, b"\0\x05chart"),
    (4096 * 516 + 8, b"\0\x06roster"),
    (4096 * 517 + 8, b"\0\x05tiles"),
    (4096 * 518 + 8, b"\0\x05board"),
    (4096 * 519 + 8, b"\0\x11"),
    (4096 * 519 + 10, KEPT),
];

// The calls below have no contracts, so that what a test does costs its proof little.

// A right file that is altered, on a device that fails behind so many calls.
fn file(
    alloc: Global,
    alterations: &[Bytes],
    calls: u64,
) -> Result<FaultyDisk<MemoryDisk>, rr_disk::Fault> {
    let bytes = vec![in alloc; 0u8; 520 * PAGE]?;
    let mut disk = in_memory(alloc, ROOM, &bytes)?;
    written(&mut disk, &RIGHT);
    written(&mut disk, alterations);
    Ok(FaultyDisk::after(disk, calls))
}

fn read(alloc: Global, alterations: &[Bytes], calls: u64) -> Result<Contents, Fault> {
    match file(alloc, alterations, calls) {
        Ok(disk) => {
            let mut failing = disk;
            read_file(alloc, &mut failing)
        }
        Err(_) => Err(Fault::OutOfMemory),
    }
}

pub(crate) fn has_texts(has: &Contents) -> bool {
    has.texts.chart.bytes.as_slice() == b"chart".as_slice()
        && has.texts.roster.bytes.as_slice() == b"roster".as_slice()
        && has.texts.tiles.bytes.as_slice() == b"tiles".as_slice()
        && has.texts.board.bytes.as_slice() == b"board".as_slice()
}

// Whether a chain is this page with so many used bytes.
fn is_page(chain: &FollowedChain, page: u32, used: usize) -> bool {
    match chain.links.first() {
        Some(link) => {
            chain.links.len() == 1 && link.page == page && usize::from(link.used) == used
        }
        None => false,
    }
}

// Whether the directory is its page, its only table has the two commands, and the pages 514 to 519 are reached.
fn has_the_table<D: Disk>(disk: &mut D, has: &mut Contents) -> bool {
    is_page(&has.directory, 514, DIRECTORY.len())
        && has.reached.has(514)
        && has.reached.has(519)
        && !has.reached.has(513)
        && !has.reached.has(520)
        && keeps_both(disk, &mut has.tables)
}

fn keeps_both<D: Disk>(disk: &mut D, tables: &mut Commands) -> bool {
    tables.turn_to(0);
    tables.chain_count() == 1
        && keeps(disk, tables, b"open a b")
        && keeps(disk, tables, b"buy a")
        && matches!(tables.next(disk), Ok(None))
}

// Whether the next command has these words.
fn keeps<D: Disk>(disk: &mut D, tables: &mut Commands, words: &[u8]) -> bool {
    match tables.next(disk) {
        Ok(Some(next)) => next == words,
        _ => false,
    }
}

fn front<'a>(all: &'a [Bytes<'a>], count: usize) -> &'a [Bytes<'a>] {
    &all[..count.min(all.len())]
}

// Whether an altered file has its texts and its table, and why the records of both halves end and how many there are.
fn told(alloc: Global, alterations: &[Bytes]) -> Result<([bool; 2], [(RunEnd, usize); 2]), Fault> {
    let Ok(mut disk) = file(alloc, alterations, u64::MAX) else {
        return Err(Fault::OutOfMemory);
    };
    let mut has = read_file(alloc, &mut disk)?;
    let near = (has.near.end, has.near.records.len());
    let far = (has.far.end, has.far.records.len());
    let table = has_the_table(&mut disk, &mut has);
    Ok(([has_texts(&has), table], [near, far]))
}

// Records of number 1 in slot 0 of half 0, and of number 2 in that of half 1; the root names the other half; and the
// record there has number 1 and length 0.
const RECORDS: [Bytes; 4] = [
    (8_192, b"\xa5\0\0\0\0\0\0\0\x01\0\0\0\x0bg1 open a b"),
    (1_056_768, b"\xa5\0\0\0\0\0\0\0\x02\0\0\0\x08g1 buy a"),
    (17, b"\x01"),
    (1_056_776, b"\x01\0\0\0\0"),
];

// Where the root names the other half, its record isn't the expected one, and the other's is the first. A record of
// length 0 is told by the end of its half.
#[test]
fn a_right_file_is_read(rt: HostRuntime) {
    files_have_one_answer();
    let alloc = rt.alloc();
    let one = (RunEnd::Closed, 1);
    assert!(rt; told(alloc, &[]) == Ok(([true; 2], [(RunEnd::Closed, 0); 2])));
    assert!(rt; told(alloc, front(&RECORDS, 2)) == Ok(([true; 2], [one, one])));
    let other = [(RunEnd::OtherNumber, 0), one];
    assert!(rt; told(alloc, front(&RECORDS, 3)) == Ok(([true; 2], other)));
    let empty = [(RunEnd::Damaged, 0), one];
    assert!(rt; told(alloc, &RECORDS) == Ok(([true; 2], empty)));
}

// What is damaged of an altered file.
fn damage(alloc: Global, alterations: &[Bytes]) -> Option<Damage> {
    match read(alloc, alterations, u64::MAX) {
        Err(Fault::Damaged(damage)) => Some(damage),
        _ => None,
    }
}

// Each alteration stands alone in a file that was right: the roster begins on the chart's page; the chart is a byte
// longer or shorter than stated; and three commands are kept, of which two are there.
#[test]
fn damage_has_its_clause(rt: HostRuntime) {
    let alloc = rt.alloc();
    let told = [
        damage(alloc, &[(2_105_366, b"\0\0\0\0\0\0\x02\x03")]),
        damage(alloc, &[(2_105_365, b"\x04")]),
        damage(alloc, &[(2_105_365, b"\x06")]),
        damage(alloc, &[(2_105_422, b"\x03")]),
    ];
    let form = Some(Damage::Form);
    assert!(rt; told == [Some(Damage::PageTwice), form, form, form]);
}

// The chart is a byte longer than stated; behind it the roster's page has 4,087 used bytes; the tiles begin on the
// chart's page; the last chain, the table's, begins outside; the directory is cut behind its table count, so that none
// of them can be found; and the root names half 2.
const IN_TURN: [Bytes; 6] = [
    (2_105_365, b"\x04"),
    (2_113_544, b"\x0f\xf7"),
    (2_105_378, b"\0\0\0\0\0\0\x02\x03"),
    (2_105_423, b"\0\0\0\0\0\0\x02\x08"),
    (2_105_352, b"\0\x32"),
    (17, b"\x02"),
];

// Of several clauses the least is told, wherever it is broken: each alteration comes to those before it.
#[test]
fn the_least_damage_is_told(rt: HostRuntime) {
    let alloc = rt.alloc();
    let told = [
        damage(alloc, front(&IN_TURN, 1)),
        damage(alloc, front(&IN_TURN, 2)),
        damage(alloc, front(&IN_TURN, 3)),
        damage(alloc, front(&IN_TURN, 4)),
        damage(alloc, front(&IN_TURN, 5)),
        damage(alloc, &IN_TURN),
    ];
    let wanted = [
        Some(Damage::Form),
        Some(Damage::UsedBytes),
        Some(Damage::PageTwice),
        Some(Damage::PageOutside),
        Some(Damage::Form),
        Some(Damage::RootField),
    ];
    assert!(rt; told == wanted);
}

fn fault(alloc: Global, alterations: &[Bytes], calls: u64) -> Option<Fault> {
    read(alloc, alterations, calls).err()
}

// Three commands are stated to be kept, of which two are there: so much is known behind the read of the table's page.
const ONE_TOO_MANY: [Bytes; 1] = [(2_105_422, b"\x03")];

// The 14th call reads that page. Where it fails, the device did, and nothing is told of the table.
#[test]
fn a_failed_read_of_a_table_is_no_damage(rt: HostRuntime) {
    let alloc = rt.alloc();
    let told = [
        fault(alloc, &[], 13),
        fault(alloc, &ONE_TOO_MANY, 13),
        fault(alloc, &ONE_TOO_MANY, 14),
    ];
    let device = Some(Fault::Disk(rr_disk::Fault::DeviceFailed));
    assert!(rt; told == [device, device, Some(Fault::Damaged(Damage::Form))]);
}

fn is_told(alloc: Global, fault: Fault, text: &str) -> bool {
    match fault.to_string(alloc) {
        Ok(shown) => shown.as_str() == text,
        Err(_) => false,
    }
}

// Where the root is shut, and where the device fails.
#[test]
fn faults_are_told(rt: HostRuntime) {
    let alloc = rt.alloc();
    let device = Fault::Disk(rr_disk::Fault::DeviceFailed);
    assert!(rt; fault(alloc, &[(0, b"\0")], u64::MAX) == Some(Fault::NotAStore));
    assert!(rt; fault(alloc, &[], 5) == Some(device));
    let are_told = [
        is_told(alloc, device, "device failed"),
        is_told(alloc, Fault::Damaged(Damage::Form), "damaged 5"),
        is_told(alloc, Fault::NotAStore, "not a store"),
        is_told(alloc, Fault::OutOfMemory, "out of memory"),
    ];
    assert!(rt; are_told == [true; 4]);
    let clauses = [
        Damage::RootField.clause(),
        Damage::PageOutside.clause(),
        Damage::PageTwice.clause(),
        Damage::UsedBytes.clause(),
        Damage::Form.clause(),
    ];
    assert!(rt; clauses == [1, 2, 3, 4, 5]);
}
