ghost use Rattle.std.specs.Prelude.{◌≡◌, ◌+◌, ◌*◌, ◌<◌, ◌≤◌, true, length, nat_lt, sum_by, IfOk, IsErrOf, OnOk};
ghost use Rattle.rr_pages.specs.Chains.{next_of, used_of};
ghost use Rattle.rr_pages.specs.Faults.{CountsFault, NoVerdict, OnDeviceFault};
ghost use Rattle.rr_pages.specs.ReachedPages.{marks_of};
ghost use Rattle.rr_pages.specs.Reading.{BeginsAnew, Follows};
ghost use Rattle.rr_pages.specs.Links.{all_fit, pages_of, AreLinks, AreBelow, EndsPast, Gathers, AddsPiece, links_damage, judged};
ghost use Rattle.rr_pages.specs.Sets.{all_marked};
ghost use Rattle.rr_pages.specs.Walk.{Walk};
ghost use Rattle.rr_pages.specs.Walk as walk;
ghost use Rattle.std.specs.List.{list_any};
ghost use Rattle.rr_disk.specs.Disk.{IsAt};

use crate::page::{LINK_BYTES, MOST_PAGES, MOST_USED, PAGE_BYTES, is_data};
use crate::{Damage, Fault, ReachedPages};
use byteorder::{BigEndian, ByteOrder};
use rr_disk::Disk;
use std::alloc::Global;

/// A chain as it was read.
#[derive(Debug, Drop)]
pub struct ReadChain {
    pub pages: Vec<u32>,
    /// The used bytes of its pages, one after another.
    pub bytes: Vec<u8>,
}

/// A page of a chain.
#[derive(Clone, Copy, Debug)]
pub struct Link {
    pub page: u32,
    /// How many of its own bytes are used, 4,086 at most in a chain that is whole.
    pub used: u16,
}

/// A chain as it was followed, from its first page to its last.
#[derive(Debug, Drop)]
pub struct FollowedChain {
    pub links: Vec<Link>,
}

// The front of a page of a chain.
#[derive(Drop)]
struct Front {
    link: Link,
    // The page that follows in the chain, 0 behind its last one.
    next: u64,
}

// A chain as far as it goes, and why it breaks off, if it does.
#[derive(Drop)]
struct Walked {
    links: Vec<Link>,
    end: Option<Damage>,
}

/// Follows a chain from its first page on, reads the front of each page alone, and puts its pages among those that are
/// reached. `count` is the root's page count; `stated` is the length that the chain should have, `None` where none is
/// stated.
///
/// # Errors
/// `Damaged` with the first clause that the chain breaks, as far as it can be followed; then too its pages are reached.
/// `OutOfMemory` only where the chain has a page. It writes nothing, and reads no page that was reached before.
pub fn chain_follow<D: Disk>(
    alloc: Global,
    disk: &mut D,
    count: u32,
    reached: &mut ReachedPages,
    head: u64,
    stated: Option<u32>,
) -> Result<FollowedChain, Fault>
    requires { count ≤ MOST_PAGES }
    ensures followed { D.Honest disk.new
        → Follows (D.state disk.old).content count (marks_of reached.old) head stated (marks_of reached.new) result }
    ensures fit { IfOk result (λ chain. all_fit count chain.links.items ≡ true) }
    ensures fault { CountsFault (D.fault_count disk.old) (D.fault_count disk.new) result }
    ensures honest { D.Honest disk.new → D.Honest disk.old }
    ensures same_state { D.Honest disk.new → D.state disk.new ≡ D.state disk.old }
    ensures same_past { D.Honest disk.new → D.past disk.new ≡ D.past disk.old }
    ensures writes { D.write_count disk.new ≡ D.write_count disk.old }
    ensures syncs { D.sync_count disk.new ≡ D.sync_count disk.old }
    ensures device { OnDeviceFault result (D.Works disk.new → D.file_len disk.old < PAGE_BYTES * count) }
    ensures works { D.Works disk.new → D.Works disk.old }
    ensures same_len { D.file_len disk.new ≡ D.file_len disk.old }
{
    let walked = walk(alloc, disk, count, reached, head)?;
    match judge(&walked.links, walked.end, stated) {
        Some(damage) => Err(Fault::Damaged(damage)),
        None => Ok(FollowedChain {
            links: walked.links,
        }),
    }
}

// Follows a chain as far as it goes.
fn walk<D: Disk>(
    alloc: Global,
    disk: &mut D,
    count: u32,
    reached: &mut ReachedPages,
    head: u64,
) -> Result<Walked, Fault>
    requires { count ≤ MOST_PAGES }
    ensures walk { IfOk result (λ walked. D.Honest disk.new
        → Walk (D.state disk.old).content count (marks_of reached.old) head (pages_of walked.links.items) walked.end) }
    ensures links { IfOk result (λ walked. D.Honest disk.new → AreLinks (D.state disk.old).content walked.links.items) }
    ensures below { IfOk result (λ walked. AreBelow count walked.links.items) }
    ensures marks { IfOk result (λ walked. marks_of reached.new
        ≡ all_marked (marks_of reached.old) (pages_of walked.links.items)) }
    ensures few { IfOk result (λ walked. length walked.links.items ≤ MOST_PAGES) }
    ensures only { NoVerdict result }
    ensures memory { IsErrOf result Fault.OutOfMemory → BeginsAnew count (marks_of reached.old) head }
    ensures fault { CountsFault (D.fault_count disk.old) (D.fault_count disk.new) result }
    ensures honest { D.Honest disk.new → D.Honest disk.old }
    ensures same_state { D.Honest disk.new → D.state disk.new ≡ D.state disk.old }
    ensures same_past { D.Honest disk.new → D.past disk.new ≡ D.past disk.old }
    ensures writes { D.write_count disk.new ≡ D.write_count disk.old }
    ensures syncs { D.sync_count disk.new ≡ D.sync_count disk.old }
    ensures device { OnDeviceFault result (D.Works disk.new → D.file_len disk.old < PAGE_BYTES * count) }
    ensures works { D.Works disk.new → D.Works disk.old }
    ensures same_len { D.file_len disk.new ≡ D.file_len disk.old }
{
    let mut links = Vec::new(alloc);
    let mut next = head;
    'pages: loop {
        if !is_data(count, next) {
            return Ok(Walked {
                links,
                end: Some(Damage::PageOutside),
            });
        }
        let page = next as u32;
        if reached.has(page) {
            return Ok(Walked {
                links,
                end: Some(Damage::PageTwice),
            });
        }
        let front = read_front(disk, page)?;
        reached.take(page);
        links.push(front.link)?;
        if front.next == 0 {
            return Ok(Walked { links, end: None });
        }
        next = front.next;
    }
}

fn read_front<D: Disk>(disk: &mut D, page: u32) -> Result<Front, Fault>
    ensures front { IfOk result (λ front. D.Honest disk.new
        → (front.next ≡ next_of (D.state disk.old).content page)
        × (front.link.used ≡ used_of (D.state disk.old).content page)) }
    ensures page { IfOk result (λ front. front.link.page ≡ page) }
    ensures only { NoVerdict result }
    ensures fault { CountsFault (D.fault_count disk.old) (D.fault_count disk.new) result }
    ensures honest { D.Honest disk.new → D.Honest disk.old }
    ensures same_state { D.Honest disk.new → D.state disk.new ≡ D.state disk.old }
    ensures same_past { D.Honest disk.new → D.past disk.new ≡ D.past disk.old }
    ensures writes { D.write_count disk.new ≡ D.write_count disk.old }
    ensures syncs { D.sync_count disk.new ≡ D.sync_count disk.old }
    ensures device { OnDeviceFault result (D.Works disk.new → D.file_len disk.old < PAGE_BYTES * page + LINK_BYTES) }
    ensures works { D.Works disk.new → D.Works disk.old }
    ensures same_len { D.file_len disk.new ≡ D.file_len disk.old }
{
    let mut front = [0u8; LINK_BYTES];
    disk.read_at(PAGE_BYTES * page as u64, &mut front)?;
    Ok(Front {
        link: Link {
            page,
            used: BigEndian::read_u16(&front[8..]),
        },
        next: BigEndian::read_u64(&front),
    })
}

// The first clause that a chain breaks which was followed over these pages to this end.
fn judge(links: &[Link], end: Option<Damage>, stated: Option<u32>) -> Option<Damage>
    requires { length links.now ≤ MOST_PAGES }
    ensures { result ≡ judged links.now end stated }
{
    match end {
        Some(damage) => Some(damage),
        None => damage_of(links, stated),
    }
}

// The first clause that a chain of these pages breaks.
fn damage_of(links: &[Link], stated: Option<u32>) -> Option<Damage>
    requires { length links.now ≤ MOST_PAGES }
    ensures { result ≡ links_damage links.now stated }
{
    if overfull(links) {
        return Some(Damage::UsedBytes);
    }
    length_damage(used_in(links), stated)
}

// Whether a page has more used bytes than it holds.
fn overfull(links: &[Link]) -> bool
    ensures { result ≡ list_any (λ link. nat_lt MOST_USED link.used) links.now }
{
    links.iter().any(|link| link.used as usize > MOST_USED)
}

fn length_damage(total: u64, stated: Option<u32>) -> Option<Damage>
    ensures { result ≡ walk.length_damage total stated }
{
    match stated {
        None => None,
        Some(stated) => {
            if total == stated as u64 {
                None
            } else {
                Some(Damage::Form)
            }
        }
    }
}

// How many bytes these pages have together.
fn used_in(links: &[Link]) -> u64
    requires { length links.now ≤ MOST_PAGES }
    ensures { result ≡ sum_by (λ link. link.used) links.now }
{
    let mut total = 0u64;
    for link in links {
        total += u64::from(link.used);
    }
    total
}

/// Reads the bytes of these pages of a chain, as it was followed.
///
/// # Errors
/// `Disk` where a read fails, and else `OutOfMemory` alone.
pub fn read_pieces<D: Disk>(alloc: Global, disk: &mut D, links: &[Link]) -> Result<ReadChain, Fault>
    ensures bytes { IfOk result (λ chain. D.Honest disk.new
        → Gathers (D.state disk.old).content links.now chain.bytes.items) }
    ensures pages { IfOk result (λ chain. chain.pages.items ≡ pages_of links.now) }
    ensures only { NoVerdict result }
    ensures fault { CountsFault (D.fault_count disk.old) (D.fault_count disk.new) result }
    ensures honest { D.Honest disk.new → D.Honest disk.old }
    ensures same_state { D.Honest disk.new → D.state disk.new ≡ D.state disk.old }
    ensures same_past { D.Honest disk.new → D.past disk.new ≡ D.past disk.old }
    ensures writes { D.write_count disk.new ≡ D.write_count disk.old }
    ensures syncs { D.sync_count disk.new ≡ D.sync_count disk.old }
    ensures device { OnDeviceFault result (D.Works disk.new → EndsPast (D.file_len disk.old) links.now) }
    ensures works { D.Works disk.new → D.Works disk.old }
    ensures same_len { D.file_len disk.new ≡ D.file_len disk.old }
{
    let mut pages = Vec::with_capacity(alloc, links.len())?;
    let mut bytes = Vec::with_capacity(alloc, used_by(links))?;
    for link in links {
        read_piece(alloc, disk, link.page, link.used, &mut bytes)?;
        pages.push(link.page)?;
    }
    Ok(ReadChain { pages, bytes })
}

// How many bytes the links use, as far as a machine can hold them: room alone, so that none is left over.
fn used_by(links: &[Link]) -> usize {
    links.iter().fold(
        0,
        |used: usize, link| used.saturating_add(link.used as usize),
    )
}

// Puts the used bytes of a page behind those that are there.
fn read_piece<D: Disk>(
    alloc: Global,
    disk: &mut D,
    page: u32,
    used: u16,
    bytes: &mut Vec<u8>,
) -> Result<(), Fault>
    ensures piece { OnOk result (D.Honest disk.new
        → AddsPiece (D.state disk.old).content page used bytes.old.items bytes.new.items) }
    ensures only { NoVerdict result }
    ensures fault { CountsFault (D.fault_count disk.old) (D.fault_count disk.new) result }
    ensures honest { D.Honest disk.new → D.Honest disk.old }
    ensures same_state { D.Honest disk.new → D.state disk.new ≡ D.state disk.old }
    ensures same_past { D.Honest disk.new → D.past disk.new ≡ D.past disk.old }
    ensures writes { D.write_count disk.new ≡ D.write_count disk.old }
    ensures syncs { D.sync_count disk.new ≡ D.sync_count disk.old }
    ensures device { OnDeviceFault result (D.Works disk.new → D.file_len disk.old < PAGE_BYTES * page + LINK_BYTES + used) }
    ensures works { D.Works disk.new → D.Works disk.old }
    ensures same_len { D.file_len disk.new ≡ D.file_len disk.old }
{
    let piece = read_bytes(
        alloc,
        disk,
        PAGE_BYTES * page as u64 + LINK_BYTES as u64,
        used as usize,
    )?;
    bytes.extend_from_slice(&piece)?;
    Ok(())
}

fn read_bytes<D: Disk>(alloc: Global, disk: &mut D, at: u64, count: usize) -> Result<Vec<u8>, Fault>
    ensures bytes { IfOk result (λ bytes. D.Honest disk.new → IsAt (D.state disk.old).content at bytes.items) }
    ensures count { IfOk result (λ bytes. length bytes.items ≡ count) }
    ensures only { NoVerdict result }
    ensures fault { CountsFault (D.fault_count disk.old) (D.fault_count disk.new) result }
    ensures honest { D.Honest disk.new → D.Honest disk.old }
    ensures same_state { D.Honest disk.new → D.state disk.new ≡ D.state disk.old }
    ensures same_past { D.Honest disk.new → D.past disk.new ≡ D.past disk.old }
    ensures writes { D.write_count disk.new ≡ D.write_count disk.old }
    ensures syncs { D.sync_count disk.new ≡ D.sync_count disk.old }
    ensures device { OnDeviceFault result (D.Works disk.new → D.file_len disk.old < at + count) }
    ensures works { D.Works disk.new → D.Works disk.old }
    ensures same_len { D.file_len disk.new ≡ D.file_len disk.old }
{
    let mut bytes = vec![in alloc; 0; count]?;
    disk.read_at(at, &mut bytes)?;
    Ok(bytes)
}
