use rr_reading::dir::{ChainRef, Dir, Fault, KitChains, SnapshotEntry, TableEntry, Version};
use rr_words::Name;
use std::alloc::Global;
use std::process::Abort;

// A directory: the chains of a kit, each a page in eight bytes and a length in four; how many tables there are; and one
// table, with its name, stamp 3, floor 1, 2 kept commands and its chain.
const BYTES: &[u8] = b"\0\0\0\0\0\0\x02\x02\0\0\0\x0b\0\0\0\0\0\0\x02\x03\0\0\x01\x02\
\0\0\0\0\0\0\x02\x04\0\0\0\x03\0\0\0\0\0\0\xff\xff\0\x01\0\0\0\x01\
\x02g1\0\0\0\0\0\0\0\x03\0\0\0\x01\0\0\0\x02\0\0\0\0\0\0\x02\x05\0\0\0\x18";

// The same with a second table, which keeps 3 commands, and three snapshots: how many there are, and of each the place
// of its table, how many commands it plays and its chain.
const WITH_SNAPSHOTS: &[u8] = b"\0\0\0\0\0\0\x02\x02\0\0\0\x0b\0\0\0\0\0\0\x02\x03\0\0\x01\x02\
\0\0\0\0\0\0\x02\x04\0\0\0\x03\0\0\0\0\0\0\xff\xff\0\x01\0\0\0\x02\
\x02g1\0\0\0\0\0\0\0\x03\0\0\0\x01\0\0\0\x02\0\0\0\0\0\0\x02\x05\0\0\0\x18\
\x01h\0\0\0\0\0\0\0\x04\0\0\0\x01\0\0\0\x03\0\0\0\0\0\0\x02\x05\0\0\0\x18\
\0\x03\0\0\0\0\0\x01\0\0\0\0\0\0\x02\x06\0\0\x02\x58\
\0\0\0\0\0\x02\0\0\0\0\0\0\x02\x07\0\0\0\0\
\0\x01\0\0\0\x03\0\0\0\0\0\0\xff\xfe\0\0\x40\0";

fn chain(head: u64, length: u32) -> ChainRef {
    ChainRef { head, length }
}

fn kit(board: u32) -> KitChains {
    KitChains {
        chart: chain(514, 11),
        roster: chain(515, 258),
        tiles: chain(516, 3),
        board: chain(0xffff, board),
    }
}

fn entry(name: &[u8], stamp: u64, kept: u32) -> Option<TableEntry> {
    let name = Name::table(name)?;
    Some(TableEntry {
        name,
        stamp,
        floor: 1,
        kept,
        chain: chain(517, 24),
    })
}

fn snapshot(table: u16, kept: u32, chain: ChainRef) -> SnapshotEntry {
    SnapshotEntry { table, kept, chain }
}

fn three_snapshots() -> [SnapshotEntry; 3] {
    [
        snapshot(0, 1, chain(518, 600)),
        snapshot(0, 2, chain(519, 0)),
        snapshot(1, 3, chain(0xfffe, 16_384)),
    ]
}

// The calls below have no contracts, so that what a test does costs its proof little.

// A table's name and stamp, and how many commands it keeps.
type Table<'a> = (&'a [u8], u64, u32);

// The tables of a directory, if each has a name.
fn entries(alloc: Global, tables: &[Table]) -> Option<Vec<TableEntry>> {
    let mut entries = Vec::new(alloc);
    for (name, stamp, kept) in tables {
        entries.push(entry(name, *stamp, *kept)?).ok()?;
    }
    Some(entries)
}

fn written(alloc: Global, dir: &Dir) -> Option<Vec<u8>> {
    if dir.tables.len() >= 65_536 || dir.snapshots.len() >= 65_536 {
        return None;
    }
    let mut bytes = Vec::new(alloc);
    dir.write(Version::One, &mut bytes).ok()?;
    Some(bytes)
}

fn spelled(
    alloc: Global,
    board: u32,
    tables: &[Table],
    snapshots: &[SnapshotEntry],
) -> Option<Vec<u8>> {
    let dir = Dir {
        bank: None,
        kit: kit(board),
        tables: entries(alloc, tables)?,
        snapshots: snapshots.to_vec(alloc).ok()?,
    };
    written(alloc, &dir)
}

// A directory of two tables, the first of which keeps so many commands and the second 3.
fn with_snapshots(alloc: Global, kept: u32, snapshots: &[SnapshotEntry]) -> Option<Vec<u8>> {
    spelled(alloc, 65_536, &[(b"g1", 3, kept), (b"h", 4, 3)], snapshots)
}

// So many snapshots, 4,096 of the first table and then one of the second.
fn rising_snapshots(alloc: Global, count: u32) -> Option<Vec<SnapshotEntry>> {
    let mut snapshots = Vec::new(alloc);
    for place in 0..count {
        let (table, kept) = if place < 4_096 {
            (0, place + 1)
        } else {
            (1, 1)
        };
        snapshots.push(snapshot(table, kept, chain(518, 600))).ok()?;
    }
    Some(snapshots)
}

// A directory with so many.
fn with_rising_snapshots(alloc: Global, count: u32) -> Option<Vec<u8>> {
    let snapshots = rising_snapshots(alloc, count)?;
    with_snapshots(alloc, 4_096, &snapshots)
}

fn read(alloc: Global, bytes: &[u8]) -> Result<Dir, Fault> {
    Dir::read(alloc, Version::One, bytes)
}

fn is_damaged(alloc: Global, bytes: &[u8]) -> bool {
    matches!(read(alloc, bytes), Err(Fault::Damaged))
}

// A directory that was spelled is damaged.
fn check_damaged(rt: &impl Abort, alloc: Global, spelled: Option<Vec<u8>>) {
    let bytes = spelled.expect(rt, "a directory");
    assert!(rt; is_damaged(alloc, &bytes));
}

fn front(bytes: &[u8], length: usize) -> &[u8] {
    &bytes[..length.min(bytes.len())]
}

// The same bytes and more.
fn lengthened(alloc: Global, bytes: &[u8], more: &[u8]) -> Option<Vec<u8>> {
    let mut longer = bytes.to_vec(alloc).ok()?;
    longer.extend_from_slice(more).ok()?;
    Some(longer)
}

fn is_same(snapshot: &SnapshotEntry, other: &SnapshotEntry) -> bool {
    snapshot.table == other.table && snapshot.kept == other.kept && snapshot.chain == other.chain
}

fn has_three_snapshots(dir: &Dir) -> bool {
    let wanted = three_snapshots();
    match dir.snapshots.as_slice() {
        [first, second, third] => {
            is_same(first, &wanted[0]) && is_same(second, &wanted[1]) && is_same(third, &wanted[2])
        }
        _ => false,
    }
}

// Whether it is the table of `BYTES`.
fn is_only_table(table: &TableEntry) -> bool {
    let is_right = [
        table.name.as_bytes() == b"g1".as_slice(),
        table.stamp == 3,
        table.floor == 1,
        table.kept == 2,
        table.chain == chain(517, 24),
    ];
    is_right == [true; 5]
}

// Whether a directory has that table alone, and no snapshot.
fn has_only_table(dir: &Dir) -> bool {
    match dir.tables.as_slice() {
        [table] => is_only_table(table) && dir.snapshots.is_empty(),
        _ => false,
    }
}

// A directory that was spelled as these bytes, as it is read.
fn read_back(rt: &impl Abort, alloc: Global, spelled: Option<Vec<u8>>, wanted: &[u8]) -> Dir {
    let bytes = spelled.expect(rt, "a directory");
    assert!(rt; bytes.as_slice() == wanted);
    read(alloc, &bytes).expect(rt, "a directory")
}

// A directory is read as it was written, byte by byte.
#[test]
fn directory_goes_both_ways(rt: HostRuntime) {
    let alloc = rt.alloc();
    let spelled = spelled(alloc, 65_536, &[(b"g1", 3, 2)], &[]);
    let dir = read_back(&rt, alloc, spelled, BYTES);
    let is_right = [dir.kit.board == chain(0xffff, 65_536), has_only_table(&dir)];
    assert!(rt; is_right == [true; 2]);
}

#[test]
fn directory_with_snapshots_goes_both_ways(rt: HostRuntime) {
    let alloc = rt.alloc();
    let spelled = with_snapshots(alloc, 2, &three_snapshots());
    let dir = read_back(&rt, alloc, spelled, WITH_SNAPSHOTS);
    assert!(rt; [dir.tables.len() == 2, has_three_snapshots(&dir)] == [true; 2]);
}

static CUT_LENGTHS: [usize; 6] = [0, 47, 48, 49, 50, 80];

// A directory that is cut, also right behind its table count, or has a byte more.
#[test]
fn cut_directories_are_damaged(rt: HostRuntime) {
    let alloc = rt.alloc();
    for length in CUT_LENGTHS.iter() {
        assert!(rt; is_damaged(alloc, front(BYTES, *length)));
    }
    check_damaged(&rt, alloc, lengthened(alloc, BYTES, b"\0"));
    // That there is no snapshot is told by the end alone.
    check_damaged(&rt, alloc, lengthened(alloc, BYTES, b"\0\0"));
}

static CUT_LENGTHS_WITH_SNAPSHOTS: [usize; 6] = [112, 113, 130, 131, 149, 166];

// The same behind tables: cut in the count, behind it, in a snapshot and behind the second; and a byte more.
#[test]
fn cut_snapshots_are_damaged(rt: HostRuntime) {
    let alloc = rt.alloc();
    assert!(rt; !is_damaged(alloc, front(WITH_SNAPSHOTS, 111)));
    for length in CUT_LENGTHS_WITH_SNAPSHOTS.iter() {
        assert!(rt; is_damaged(alloc, front(WITH_SNAPSHOTS, *length)));
    }
    assert!(rt; WITH_SNAPSHOTS.len() == 167);
    check_damaged(&rt, alloc, lengthened(alloc, WITH_SNAPSHOTS, b"\0"));
}

// Of a table that isn't there, of no command, of more than the table keeps, and a byte too long.
#[test]
fn snapshots_past_a_limit_are_damaged(rt: HostRuntime) {
    let alloc = rt.alloc();
    for (table, kept, length) in [(2, 1, 600), (0, 0, 600), (0, 3, 600), (0, 1, 16_385)] {
        let one = [snapshot(table, kept, chain(518, length))];
        check_damaged(&rt, alloc, with_snapshots(alloc, 2, &one));
    }
}

// Each snapshot is of a later table than the one before it, or of more commands.
#[test]
fn snapshots_that_do_not_rise_are_damaged(rt: HostRuntime) {
    let alloc = rt.alloc();
    for (table, kept, before) in [(1, 2, 2), (1, 1, 2), (0, 2, 1)] {
        let pair = [
            snapshot(1, before, chain(518, 600)),
            snapshot(table, kept, chain(519, 600)),
        ];
        check_damaged(&rt, alloc, with_snapshots(alloc, 2, &pair));
    }
}

#[test]
fn directory_has_4096_snapshots_at_most(rt: HostRuntime) {
    let alloc = rt.alloc();
    let most = with_rising_snapshots(alloc, 4_096).expect(&rt, "a directory");
    assert!(rt; !is_damaged(alloc, &most));
    check_damaged(&rt, alloc, with_rising_snapshots(alloc, 4_097));
}

// How long the board's text is, and the tables: three that are past a limit, a name twice, and a text that is too long.
static PAST_A_LIMIT: [(u32, &[Table]); 5] = [
    (3, &[(b"g1", 4_000_000_001, 2)]),
    (3, &[(b"g1", 3, 0)]),
    (3, &[(b"g1", 3, 4_097)]),
    (3, &[(b"g1", 3, 2), (b"h", 3, 2), (b"g1", 4, 2)]),
    (65_537, &[]),
];

static TOO_MANY: [Table; 65] = [(b"a", 3, 2); 65];

// Each directory has a table past a limit, a name twice, a long text or too many tables.
#[test]
fn directories_past_a_limit_are_damaged(rt: HostRuntime) {
    let alloc = rt.alloc();
    for (board, tables) in PAST_A_LIMIT.iter() {
        check_damaged(&rt, alloc, spelled(alloc, *board, tables, &[]));
    }
    check_damaged(&rt, alloc, spelled(alloc, 3, &TOO_MANY, &[]));
}

// A bank of 2,400 in eight bytes.
const BANK: &[u8] = b"\0\0\0\0\0\0\x09\x60";

// The bank that is read of a directory of version 2, and whether it is written as it was read.
fn banked(alloc: Global, bytes: &[u8]) -> Option<(Option<u64>, bool)> {
    let dir = Dir::read(alloc, Version::Two, bytes).ok()?;
    let mut written = Vec::new(alloc);
    if dir.tables.len() >= 65_536 || dir.snapshots.len() >= 65_536 {
        return None;
    }
    dir.write(Version::Two, &mut written).ok()?;
    Some((dir.bank, written.as_slice() == bytes))
}

// In version 2 the bank stands before what version 1 has.
#[test]
fn a_directory_of_version_2_begins_with_the_bank(rt: HostRuntime) {
    let alloc = rt.alloc();
    let bytes = lengthened(alloc, BANK, WITH_SNAPSHOTS).expect(&rt, "a directory");
    assert!(rt; banked(alloc, &bytes) == Some((Some(2_400), true)));
    assert!(rt; banked(alloc, WITH_SNAPSHOTS).is_none());
    assert!(rt; banked(alloc, front(&bytes, 7)).is_none());
    let unbanked = read(alloc, WITH_SNAPSHOTS).expect(&rt, "a directory");
    assert!(rt; unbanked.bank.is_none());
}

#[test]
fn versions_have_their_numbers(rt: HostRuntime) {
    assert!(rt; matches!(Version::of(1), Some(Version::One)));
    assert!(rt; matches!(Version::of(2), Some(Version::Two)));
    assert!(rt; Version::of(0).is_none() && Version::of(3).is_none());
    assert!(rt; [Version::One.number(), Version::Two.number()] == [1, 2]);
}
