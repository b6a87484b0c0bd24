ghost use Rattle.std.specs.Prelude.{◌≡◌, ◌+◌, ◌*◌, ◌<◌, ◌^◌, ◌∷◌, true, [], length, drop, IfOk, IfSome, MatchOption, OnErr};
ghost use Rattle.rr_disk.specs.Disk as device;
ghost use Rattle.rr_reading.specs.Lending.Fitting.{each_fits, links_at};
ghost use Rattle.rr_pages.specs.declared.page.TheConstants.{PAGE_BYTES};

use crate::lending::page_buffer::PageBuffer;
use rr_disk::{Disk, Fault};
use rr_pages::{FollowedChain, Link};
use std::alloc::{AllocError, Global};

/// Chains that were followed to their ends, of which it lends the bytes of one, page after page. Once made it takes no
/// more memory.
#[derive(Drop)]
pub struct Chains {
    all: Vec<FollowedChain>,
    // Which of them is at hand, and how many of its pages it has gone on to.
    index: usize,
    passed: usize,
    page: PageBuffer,
    // The page count of their file.
    count: u32,
    ghost fit: { each_fits count all.items ≡ true },
}

/// The used bytes of one page of a chain, in a buffer for pages.
#[derive(Clone, Copy)]
pub struct Piece<'a> {
    pub bytes: &'a [u8],
}

impl Chains {
    ghost use Rattle.std.specs.Prelude.{⊤, OnSome};
    ghost use Rattle.std.specs.Bool.{OnTrue, OnFalse};
    ghost use Rattle.std.specs.Borrow.{sem, follows_so};
    ghost use mathlib.Core.Option.{none};
    ghost use Rattle.rr_reading.specs.contracts.lending.chains.Chains.{the_row};
    ghost use Rattle.rr_reading.specs.Lending.Chains.{all_of, count_of, links_left, piece_of, LendsPiece, StepsOn};

    /// Chains of a file with this page count, at the first of them.
    pub fn new(alloc: Global, count: u32, all: Vec<FollowedChain>) -> Result<Chains, AllocError>
        requires { each_fits count all.items ≡ true }
        ensures all { IfOk result (λ chains. all_of chains ≡ all.items) }
        ensures left { IfOk result (λ chains. links_left chains ≡ links_at all.items 0) }
        ensures piece { IfOk result (λ chains. piece_of chains ≡ []) }
        ensures count { IfOk result (λ chains. count_of chains ≡ count) }
    {
        let page = PageBuffer::new(alloc)?;
        Ok(Chains {
            all,
            index: 0,
            passed: 0,
            page,
            count,
        })
    }

    /// Goes to the first page of the chain at this place, of which none is lent yet. Past the last chain nothing is.
    pub fn turn_to(&mut self, index: usize)
        ensures left { links_left self.new ≡ links_at (all_of self.old) index }
        ensures piece { piece_of self.new ≡ [] }
        ensures all { all_of self.new ≡ all_of self.old }
        ensures count { count_of self.new ≡ count_of self.old }
    {
        self.index = index;
        self.passed = 0;
        self.page.clear();
    }

    // How many chains there are.
    pub(crate) fn chain_count(&self) -> usize
        ensures { result ≡ length (all_of self.now) }
    {
        self.all.len()
    }

    // The used bytes of the page that it went on to last, none before the first one or behind a fault.
    pub(crate) fn piece(&self) -> &[u8]
        ensures { result.now ≡ piece_of self.now }
    {
        self.page.piece()
    }

    // Goes on to the next page, if there is one. Behind a fault that page is still the next one.
    pub(crate) fn advance<D: Disk>(&mut self, disk: &mut D) -> Result<bool, Fault>
        ensures more { IfOk result (λ more. OnTrue more (D.Honest disk.new → StepsOn (D.state disk.old).content self.old self.new)) }
        ensures fewer { IfOk result (λ more. OnTrue more (length (links_left self.new) < length (links_left self.old))) }
        ensures end { IfOk result (λ more. OnFalse more (links_left self.old ≡ [])) }
        ensures same_end { IfOk result (λ more. OnFalse more (self.new ≡ self.old)) }
        ensures nothing { OnErr result (piece_of self.new ≡ []) }
        ensures stays { OnErr result (links_left self.new ≡ links_left self.old) }
        ensures count { count_of self.new ≡ count_of self.old }
        ensures all { all_of self.new ≡ all_of self.old }
        ensures fault { device.CountsFault (D.fault_count disk.old) (D.fault_count disk.new) result }
        ensures honest { D.Honest disk.new → D.Honest disk.old }
        ensures same_state { D.Honest disk.new → D.state disk.new ≡ D.state disk.old }
        ensures same_past { D.Honest disk.new → D.past disk.new ≡ D.past disk.old }
        ensures writes { D.write_count disk.new ≡ D.write_count disk.old }
        ensures syncs { D.sync_count disk.new ≡ D.sync_count disk.old }
        ensures device { OnErr result (D.Works disk.new → D.file_len disk.old < PAGE_BYTES * count_of self.old) }
        ensures works { D.Works disk.new → D.Works disk.old }
        ensures same_len { D.file_len disk.new ≡ D.file_len disk.old }
    {
        match link_at(&self.all, self.index, self.passed) {
            Some(link) => {
                self.page.load(disk, &link)?;
                self.passed += 1;
                Ok(true)
            }
            None => Ok(false),
        }
    }

    /// Goes on to the next page of the chain, if there is one, and lends its used bytes. Behind a fault that page is
    /// still the next one.
    pub fn next<D: Disk>(&mut self, disk: &mut D) -> Result<Option<Piece<'_>>, Fault>
        ensures* after { sem 𝓛 (follows_so the_row the_row self.entry.ghost_name none (λ _ _. ⊤)
            (λ chains. IfOk result (λ lent. D.Honest disk.new → LendsPiece (D.state disk.old).content self.old lent chains)
            × IfOk result (λ lent. OnSome lent (length (links_left chains) < length (links_left self.old)))
            × OnErr result (links_left chains ≡ links_left self.old)
            × (count_of chains ≡ count_of self.old)
            × (all_of chains ≡ all_of self.old))) }
        ensures fault { device.CountsFault (D.fault_count disk.old) (D.fault_count disk.new) result }
        ensures honest { D.Honest disk.new → D.Honest disk.old }
        ensures same_state { D.Honest disk.new → D.state disk.new ≡ D.state disk.old }
        ensures same_past { D.Honest disk.new → D.past disk.new ≡ D.past disk.old }
        ensures writes { D.write_count disk.new ≡ D.write_count disk.old }
        ensures syncs { D.sync_count disk.new ≡ D.sync_count disk.old }
        ensures device { OnErr result (D.Works disk.new → D.file_len disk.old < PAGE_BYTES * count_of self.old) }
        ensures works { D.Works disk.new → D.Works disk.old }
        ensures same_len { D.file_len disk.new ≡ D.file_len disk.old }
    {
        if self.advance(disk)? {
            Ok(Some(Piece {
                bytes: self.piece(),
            }))
        } else {
            Ok(None)
        }
    }
}

// The page of the chain at this place behind the ones that were passed, if there is one.
fn link_at(all: &[FollowedChain], index: usize, passed: usize) -> Option<Link>
    ensures link { MatchOption result (drop passed (links_at all.now index) ≡ [])
        (λ link. drop passed (links_at all.now index) ≡ link ∷ drop (passed + 1) (links_at all.now index)) }
    ensures room { IfSome result (λ _. passed < 2 ^ 63) }
{
    if index >= all.len() {
        return None;
    }
    let links = all[index].links.as_slice();
    if passed >= links.len() {
        return None;
    }
    Some(links[passed])
}
