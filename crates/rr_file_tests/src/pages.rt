ghost use Rattle.std.specs.Prelude.{◌≤◌, ◌*◌};

use crate::calls::{blank, content, counts, in_memory, write};
use rr_disk::MemoryDisk;
use rr_pages::journal::HalfIndex;
use rr_pages::{
    Damage, Fault, FreePages, FreshPage, ReachedPages, ReadChain, Root, Roots, chain_follow,
    chain_write, laws, read_pieces, shut, take_root,
};
use std::alloc::{AllocError, Global};
use std::process::Abort;

// How many pages the files below have.
const PAGES: usize = 516;

// Room for a file of 520 pages, and for the calls of a test.
const ROOM: usize = 1 << 22;

// The calls below have almost no contracts, so that what a test does costs its proof little.

pub(crate) fn place_of(page: u16) -> u64
    ensures { result ≤ 4096 * 65535 }
{
    4096 * u64::from(page)
}

// Writes the next page and the count of used bytes of a page.
pub(crate) fn link(
    disk: &mut MemoryDisk,
    page: u16,
    next: u64,
    used: u16,
) -> Result<(), rr_disk::Fault> {
    write(disk, place_of(page), &next.to_be_bytes())?;
    write(disk, place_of(page) + 8, &used.to_be_bytes())?;
    Ok(())
}

// A page of a chain: which one, the next one, and its used bytes.
pub(crate) type PageOfChain<'a> = (u16, u64, &'a [u8]);

pub(crate) fn lay_page(
    disk: &mut MemoryDisk,
    page: u16,
    next: u64,
    piece: &[u8],
) -> Result<(), rr_disk::Fault> {
    let used = u16::try_from(piece.len()).unwrap_or(u16::MAX);
    link(disk, page, next, used)?;
    write(disk, place_of(page) + 10, piece)
}

// A file of so many pages, of which those of a chain are laid.
pub(crate) fn laid(
    rt: &impl Abort,
    alloc: Global,
    count: usize,
    pages: &[PageOfChain],
) -> MemoryDisk {
    let mut disk = blank(rt, alloc, count, ROOM);
    for (page, next, piece) in pages {
        lay_page(&mut disk, *page, *next, piece).expect(rt, "room");
    }
    disk
}

// A chain was read that has these pages and these bytes.
pub(crate) fn check_chain(
    rt: &impl Abort,
    answer: Result<ReadChain, Fault>,
    pages: &[u32],
    bytes: &[u8],
) {
    let chain = answer.expect(rt, "a chain");
    let is_right = [
        chain.pages.as_slice() == pages,
        chain.bytes.as_slice() == bytes,
    ];
    assert!(rt; is_right == [true; 2]);
}

fn read(
    alloc: Global,
    disk: &mut MemoryDisk,
    head: u64,
    stated: Option<u32>,
) -> Result<ReadChain, Fault> {
    let mut reached = ReachedPages::new(alloc)?;
    let followed = chain_follow(alloc, disk, 516, &mut reached, head, stated)?;
    read_pieces(alloc, disk, &followed.links)
}

fn no_page_taken(alloc: Global) -> Result<FreePages, AllocError> {
    FreePages::new(alloc, ReachedPages::new(alloc)?)
}

// Lays a chain where no page is taken: its first page, and how many it has.
fn lay_fresh(alloc: Global, disk: &mut MemoryDisk, bytes: &[u8]) -> Result<(u32, usize), Fault> {
    let mut free = no_page_taken(alloc)?;
    let mut fresh = Vec::new(alloc);
    let head = chain_write(alloc, &mut free, &mut fresh, bytes)?;
    write_fresh(disk, &fresh)?;
    Ok((head, fresh.len()))
}

fn write_fresh(disk: &mut MemoryDisk, fresh: &[FreshPage]) -> Result<(), rr_disk::Fault> {
    for page in fresh {
        write(disk, 4096 * u64::from(page.page), &page.bytes)?;
    }
    Ok(())
}

fn flip(disk: &mut MemoryDisk, roots: &mut Roots, root: &Root) -> Result<(), rr_disk::Fault> {
    roots.flip(disk, root)
}

// No root is taken, for this reason.
fn check_no_root(rt: &impl Abort, disk: &mut MemoryDisk, fault: Fault) {
    assert!(rt; take_root(disk).err() == Some(fault));
}

// Writes a root, which is taken then, from this side.
fn check_flip(rt: &impl Abort, disk: &mut MemoryDisk, roots: &mut Roots, side: bool, root: &Root) {
    flip(disk, roots, root).expect(rt, "room");
    let taken = take_root(disk).expect(rt, "a root");
    let is_right = [
        taken.side == side,
        taken.root.number == root.number,
        taken.root.half == root.half,
    ];
    assert!(rt; is_right == [true; 3]);
}

fn check_damage(rt: &impl Abort, answer: Result<ReadChain, Fault>, damage: Damage, clause: u8) {
    let fault = answer.err().expect(rt, "a damaged chain");
    assert!(rt; fault == Fault::Damaged(damage));
    assert!(rt; damage.clause() == clause);
}

#[test]
fn a_page_equal_to_the_page_count_is_outside(rt: HostRuntime) {
    let mut disk = blank(&rt, rt.alloc(), PAGES, ROOM);
    for head in [516, 513, 0] {
        let answer = read(rt.alloc(), &mut disk, head, None);
        check_damage(&rt, answer, Damage::PageOutside, 2);
    }
}

#[test]
fn a_page_that_leads_to_itself_is_reached_twice(rt: HostRuntime) {
    let mut disk = blank(&rt, rt.alloc(), PAGES, ROOM);
    link(&mut disk, 514, 514, 0).expect(&rt, "room");
    let answer = read(rt.alloc(), &mut disk, 514, None);
    check_damage(&rt, answer, Damage::PageTwice, 3);
}

#[test]
fn a_page_has_no_more_used_bytes_than_room(rt: HostRuntime) {
    let mut disk = blank(&rt, rt.alloc(), PAGES, ROOM);
    link(&mut disk, 515, 0, 4087).expect(&rt, "room");
    let answer = read(rt.alloc(), &mut disk, 515, None);
    check_damage(&rt, answer, Damage::UsedBytes, 4);
}

static TWO_PAGES: [PageOfChain; 2] = [(515, 514, b"abc"), (514, 0, b"de")];

#[test]
fn a_chain_has_its_stated_length(rt: HostRuntime) {
    let mut disk = laid(&rt, rt.alloc(), PAGES, &TWO_PAGES);
    let whole = read(rt.alloc(), &mut disk, 515, Some(5));
    check_chain(&rt, whole, &[515, 514], b"abcde");
    for stated in [4, 6] {
        let answer = read(rt.alloc(), &mut disk, 515, Some(stated));
        check_damage(&rt, answer, Damage::Form, 5);
    }
}

#[test]
fn what_was_laid_is_read(rt: HostRuntime) {
    let alloc = rt.alloc();
    let mut disk = blank(&rt, alloc, PAGES, ROOM);
    let bytes = vec![in alloc; 7u8; 5000].expect(&rt, "memory");
    let laid = lay_fresh(alloc, &mut disk, &bytes).expect(&rt, "pages");
    assert!(rt; laid == (514, 2));
    let chain = read(alloc, &mut disk, 514, Some(5000));
    check_chain(&rt, chain, &[514, 515], &bytes);
}

// The number of each root that is written, its side and its half.
static ROOTS: [(u64, bool, HalfIndex); 2] = [
    (7, false, HalfIndex::First),
    (8, true, HalfIndex::Second),
];

fn root(number: u64, half: HalfIndex) -> Root {
    Root {
        number,
        directory: 514,
        half,
        first: 1,
        pages: 516,
        version: 1,
    }
}

#[test]
fn the_root_that_was_written_last_is_taken(rt: HostRuntime) {
    let mut disk = blank(&rt, rt.alloc(), PAGES, ROOM);
    check_no_root(&rt, &mut disk, Fault::NotAStore);
    let mut roots = Roots { taken: true };
    for (number, side, half) in ROOTS.iter() {
        check_flip(&rt, &mut disk, &mut roots, *side, &root(*number, *half));
    }
    write(&mut disk, 4096 + 26, &517u64.to_be_bytes()).expect(&rt, "room");
    check_no_root(&rt, &mut disk, Fault::Damaged(Damage::RootField));
}

// The first free page behind a page kept and one taken; once both are abandoned; once they are kept and taken anew, and
// reclaimed; and once nothing is kept of them.
fn free_in_turn(alloc: Global) -> Result<[Option<u32>; 4], Fault> {
    let mut free = no_page_taken(alloc)?;
    free.keep(514);
    free.take()?;
    let taken = free.first_free();
    free.abandon();
    let abandoned = free.first_free();
    free.keep(514);
    free.take()?;
    free.reclaim();
    let reclaimed = free.first_free();
    free.reclaim();
    Ok([taken, abandoned, reclaimed, free.first_free()])
}

#[test]
fn pages_are_free_again(rt: HostRuntime) {
    let free = free_in_turn(rt.alloc()).expect(&rt, "memory");
    assert!(rt; free == [Some(516), Some(514), Some(516), Some(514)]);
}

// How many calls failed, writes and syncs were made, and how long the file is, once a gate is shut and shut again.
fn counts_of_shut(disk: &mut MemoryDisk) -> Result<[[u64; 4]; 2], rr_disk::Fault> {
    shut(disk, 1)?;
    let once = counts(disk);
    shut(disk, 1)?;
    Ok([once, counts(disk)])
}

#[test]
fn an_open_gate_alone_is_written(rt: HostRuntime) {
    let mut disk = in_memory(rt.alloc(), 1000, b"a\xa5b").expect(&rt, "room");
    let told = counts_of_shut(&mut disk).expect(&rt, "room");
    let is_shut = content(&disk) == b"a\0b".as_slice();
    assert!(rt; [told == [[0, 1, 1, 3], [0, 1, 2, 3]], is_shut] == [true; 2]);
}

#[test]
fn laws_are_called(rt: HostRuntime) {
    laws::laid_pages_are_the_chain();
    laws::spelled_roots_read_back();
    laws::one_root_is_taken();
    laws::taken_pages_are_free();
    laws::standing_chains_are_read();
    laws::sizes();
    rr_pages::journal::sizes();
    rr_reading::dir::laws::one_meaning();
    rr_reading::dir::laws::limits();
    rr_reading::dir::laws::newest_version();
    assert!(rt; [rr_pages::FIRST_VERSION, rr_pages::NEWEST_VERSION] == [1, 2]);
    assert!(rt; rr_reading::dir::NEWEST.number() == 2);
}
