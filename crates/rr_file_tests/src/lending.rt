use crate::calls::failing_once;
use crate::pages::{PageOfChain, check_chain, laid, lay_page, link};
use rr_disk::{Disk, MemoryDisk};
use rr_pages::{Damage, Fault, ReachedPages, ReadChain, chain_follow, read_pieces};
use rr_reading::lending::{Chains, Commands, JoiningBuffer, laws};
use std::alloc::Global;
use std::process::Abort;

// The pages of each file below.
const PAGES: u16 = 518;

// Such a file with these pages of chains; the others' bytes are 0.
fn file(rt: &impl Abort, alloc: Global, pages: &[PageOfChain]) -> MemoryDisk {
    laid(rt, alloc, PAGES as usize, pages)
}

// The calls below have no contracts, so that what a test does costs its proof little.

fn follow<D: Disk>(alloc: Global, disk: &mut D, stated: Option<u32>) -> Result<Chains, Fault> {
    let count = u32::from(PAGES);
    let mut reached = ReachedPages::new(alloc)?;
    let chain = chain_follow(alloc, disk, count, &mut reached, 514, stated)?;
    let all = vec![in alloc; chain]?;
    let chains = Chains::new(alloc, count, all)?;
    Ok(chains)
}

// The pages of the chain from page 514 on, and their bytes.
fn joined(alloc: Global, disk: &mut MemoryDisk) -> Result<ReadChain, Fault> {
    let mut reached = ReachedPages::new(alloc)?;
    let chain = chain_follow(alloc, disk, u32::from(PAGES), &mut reached, 514, None)?;
    let read = read_pieces(alloc, disk, &chain.links)?;
    Ok(read)
}

// Whether the chain lends this piece next, or nothing.
fn lends<D: Disk>(
    chain: &mut Chains,
    disk: &mut D,
    wanted: Option<&[u8]>,
) -> Result<bool, rr_disk::Fault> {
    let piece = chain.next(disk)?;
    Ok(piece.map(|piece| piece.bytes) == wanted)
}

fn commands_in(alloc: Global, chains: Chains) -> Result<Commands, Fault> {
    let joined = JoiningBuffer::new(alloc)?;
    Ok(Commands::new(chains, joined))
}

// Whether these are the next words, or there is no command more.
fn tells(
    commands: &mut Commands,
    disk: &mut MemoryDisk,
    wanted: Option<&[u8]>,
) -> Result<bool, Fault> {
    let words = commands.next(disk)?;
    Ok(words == wanted)
}

// Whether the chain from page 514 on has commands of these words.
fn tells_all(
    alloc: Global,
    disk: &mut MemoryDisk,
    wanted: &[Option<&[u8]>],
) -> Result<bool, Fault> {
    let chain = follow(alloc, disk, None)?;
    let mut commands = commands_in(alloc, chain)?;
    for words in wanted {
        if !tells(&mut commands, disk, *words)? {
            return Ok(false);
        }
    }
    Ok(true)
}

// The chains from page 514 on and from page 515 on.
fn two_chains(alloc: Global, disk: &mut MemoryDisk) -> Result<Chains, Fault> {
    let count = u32::from(PAGES);
    let mut reached = ReachedPages::new(alloc)?;
    let first = chain_follow(alloc, disk, count, &mut reached, 514, None)?;
    let second = chain_follow(alloc, disk, count, &mut reached, 515, None)?;
    let chains = Chains::new(alloc, count, vec![in alloc; first, second]?)?;
    Ok(chains)
}

fn damage<T>(answer: Result<T, Fault>) -> Option<Damage>
where
    T: Drop,
{
    match answer {
        Err(Fault::Damaged(damage)) => Some(damage),
        _ => None,
    }
}

// A chain of three pages, of which the second has no bytes.
static THREE_PAGES: [PageOfChain; 3] = [(514, 516, b"abc"), (516, 515, b""), (515, 0, b"de")];

static THREE_PIECES: [Option<&[u8]>; 4] = [Some(b"abc"), Some(b""), Some(b"de"), None];

#[test]
fn a_chain_lends_a_piece_a_page(rt: HostRuntime) {
    let mut disk = file(&rt, rt.alloc(), &THREE_PAGES);
    let mut chain = follow(rt.alloc(), &mut disk, None).expect(&rt, "a chain");
    for piece in THREE_PIECES.iter() {
        assert!(rt; lends(&mut chain, &mut disk, *piece).expect(&rt, "a piece"));
    }
}

#[test]
fn the_pieces_of_a_chain_are_joined(rt: HostRuntime) {
    let mut disk = file(&rt, rt.alloc(), &THREE_PAGES);
    let chain = joined(rt.alloc(), &mut disk);
    check_chain(&rt, chain, &[514, 516, 515], b"abcde");
}

static PAGES_OF_COMMANDS: [PageOfChain; 4] = [
    (514, 516, b"\x00\x02hi\x00"),
    (516, 515, b"\x03xy"),
    (515, 517, b""),
    (517, 0, b"z\x00\x00\x00\x01!"),
];

static COMMANDS: [Option<&[u8]>; 5] = [Some(b"hi"), Some(b"xyz"), Some(b""), Some(b"!"), None];

#[test]
fn commands_cross_the_ends_of_pages(rt: HostRuntime) {
    let mut disk = file(&rt, rt.alloc(), &PAGES_OF_COMMANDS);
    assert!(rt; tells_all(rt.alloc(), &mut disk, &COMMANDS).expect(&rt, "commands"));
}

static PAGES_OF_TWO_CHAINS: [PageOfChain; 3] = [
    (514, 0, b"\x00\x01a"),
    (515, 516, b"\x00\x02b"),
    (516, 0, b"c\x00\x01d"),
];

// The first command of the second chain, of the first, of the second again, and of a third, where there is none.
static TURNS: [(usize, Option<&[u8]>); 4] = [
    (1, Some(b"bc")),
    (0, Some(b"a")),
    (1, Some(b"bc")),
    (2, None),
];

#[test]
fn chains_are_lent_by_turns(rt: HostRuntime) {
    let mut disk = file(&rt, rt.alloc(), &PAGES_OF_TWO_CHAINS);
    let chains = two_chains(rt.alloc(), &mut disk).expect(&rt, "chains");
    let mut commands = commands_in(rt.alloc(), chains).expect(&rt, "memory");
    for (index, words) in TURNS.iter() {
        commands.turn_to(*index);
        assert!(rt; tells(&mut commands, &mut disk, *words).expect(&rt, "commands"));
    }
}

// A page that is cut within its first command, and one that is cut behind it.
static CUT_SHORT: [&[u8]; 2] = [b"\x00\x05abcd", b"\x00\x01a\x00"];

static ONE_COMMAND: [Option<&[u8]>; 2] = [Some(b"a"), None];

#[test]
fn a_chain_cut_short_has_another_form(rt: HostRuntime) {
    let mut disk = file(&rt, rt.alloc(), &[]);
    for piece in CUT_SHORT.iter() {
        lay_page(&mut disk, 514, 0, piece).expect(&rt, "room");
        let told = tells_all(rt.alloc(), &mut disk, &ONE_COMMAND);
        assert!(&rt; damage(told) == Some(Damage::Form));
    }
}

// Page 515 leads to page 514, which is linked anew below.
static TWO_PAGES: [PageOfChain; 2] = [(515, 514, b""), (514, 0, b"ab")];

// The page behind page 514, how many bytes it says to use, how many the chain is stated to have, and what is damaged.
static BROKEN: [(u64, u16, Option<u32>, Damage); 4] = [
    (515, 0, None, Damage::PageTwice),
    (518, 0, None, Damage::PageOutside),
    (0, 4087, None, Damage::UsedBytes),
    (0, 2, Some(3), Damage::Form),
];

#[test]
fn a_broken_chain_lends_nothing(rt: HostRuntime) {
    laws::chains_are_read_once();
    laws::commands_are_the_kept_ones();
    let mut disk = file(&rt, rt.alloc(), &TWO_PAGES);
    for (next, used, stated, told) in BROKEN.iter() {
        link(&mut disk, 514, *next, *used).expect(&rt, "room");
        assert!(&rt; damage(follow(rt.alloc(), &mut disk, *stated)) == Some(*told));
    }
}

#[test]
fn a_page_is_lent_behind_a_fault(rt: HostRuntime) {
    let disk = file(&rt, rt.alloc(), &[(514, 0, b"abc")]);
    let mut disk = failing_once(disk, 1, 0);
    let mut chain = follow(rt.alloc(), &mut disk, None).expect(&rt, "a chain");
    let has_failed = lends(&mut chain, &mut disk, None).is_err();
    let is_lent = lends(&mut chain, &mut disk, Some(b"abc")).expect(&rt, "a piece");
    assert!(&rt; [has_failed, is_lent] == [true; 2]);
}
