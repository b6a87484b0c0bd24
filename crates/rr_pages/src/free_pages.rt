ghost use Rattle.std.specs.Prelude.{◌≡◌, ◌||◌, ℕ, ◌<◌, Bool, List, false, get_or, length, nat_lt, IfOk, OnErr, IsOkUnless, MatchOption};
ghost use Rattle.rr_pages.specs.Sets.{HasTaken, IsEmpty, IsFirstFree, NoneFree, marked};
ghost use Rattle.rr_pages.specs.PageSet as sets;
ghost use Rattle.rr_pages.specs.ReachedPages.{marks_of};
ghost use Rattle.rr_pages.specs.declared.page.TheConstants.{MOST_PAGES};

use crate::page::{FIRST_DATA, MOST_PAGES};
use crate::{Fault, PageSet, ReachedPages};
use std::alloc::{AllocError, Global};
use std::mem;

/// Which data pages are free: those that neither the present root reaches nor the coming one will reach. Once made it
/// takes no more memory.
#[derive(Drop)]
pub struct FreePages {
    present: ReachedPages,
    coming: ReachedPages,
    // All that aren't free, so that the first free page is looked for in one set.
    taken: PageSet,
    ghost told: { ∥ HasTaken (marks_of present) (marks_of coming) (sets.marks_of taken) ∥₁ },
}

impl FreePages {
    ghost use Rattle.rr_pages.specs.FreePages.{present_of, coming_of};

    /// With the pages that the present root reaches, and none for the coming one.
    pub fn new(alloc: Global, reached: ReachedPages) -> Result<FreePages, AllocError>
        ensures present { IfOk result (λ pages. present_of pages ≡ marks_of reached) }
        ensures coming { IfOk result (λ pages. IsEmpty (coming_of pages)) }
    {
        let coming = ReachedPages::new(alloc)?;
        let mut taken = PageSet::new(alloc, MOST_PAGES)?;
        rebuild(&mut taken, &reached);
        Ok(FreePages {
            present: reached,
            coming,
            taken,
        })
    }

    /// The first free page, if there is one under 65,536.
    pub fn first_free(&self) -> Option<u32>
        ensures { MatchOption result (NoneFree (present_of self.now) (coming_of self.now))
            (λ page. IsFirstFree (present_of self.now) (coming_of self.now) page) }
    {
        self.taken.first_free()
    }

    /// Takes the first free page for the coming root. `FileFull` where no page is free.
    pub fn take(&mut self) -> Result<u32, Fault>
        ensures first { IfOk result (λ page. IsFirstFree (present_of self.old) (coming_of self.old) page) }
        ensures coming { IfOk result (λ page. coming_of self.new ≡ marked (coming_of self.old) page) }
        ensures full { OnErr result (NoneFree (present_of self.old) (coming_of self.old)) }
        ensures err { IsOkUnless result Fault.FileFull }
        ensures same { OnErr result (coming_of self.new ≡ coming_of self.old) }
        ensures present { present_of self.new ≡ present_of self.old }
        ensures whole { length (coming_of self.old) ≡ MOST_PAGES }
    {
        match self.first_free() {
            None => Err(Fault::FileFull),
            Some(page) => {
                self.keep(page);
                Ok(page)
            }
        }
    }

    /// The coming root will reach this page, which the present one reaches.
    pub fn keep(&mut self, page: u32)
        requires { page < MOST_PAGES }
        ensures coming { coming_of self.new ≡ marked (coming_of self.old) page }
        ensures present { present_of self.new ≡ present_of self.old }
        ensures whole { length (coming_of self.old) ≡ MOST_PAGES }
    {
        self.coming.take(page);
        self.taken.take(page);
    }

    /// The coming root is the present one now: what it doesn't reach is free.
    pub fn reclaim(&mut self)
        ensures present { present_of self.new ≡ coming_of self.old }
        ensures coming { IsEmpty (coming_of self.new) }
    {
        mem::swap(&mut self.present, &mut self.coming);
        self.abandon();
    }

    /// There will be no coming root: what was taken for it is free again.
    pub fn abandon(&mut self)
        ensures present { present_of self.new ≡ present_of self.old }
        ensures coming { IsEmpty (coming_of self.new) }
    {
        self.coming.clear();
        rebuild(&mut self.taken, &self.present);
    }
}

// Takes the pages of the roots and of the journal and those that are reached, and no others.
fn rebuild(taken: &mut PageSet, reached: &ReachedPages)
    requires { length (sets.marks_of taken.old) ≡ MOST_PAGES }
    ensures { (coming : List Bool) → IsEmpty coming → HasTaken (marks_of reached.now) coming (sets.marks_of taken.new) }
{
    taken.clear();
    take_front(taken);
    taken.union(&reached.set);
}

// Takes the pages before the first data page too.
fn take_front(taken: &mut PageSet)
    requires { length (sets.marks_of taken.old) ≡ MOST_PAGES }
    ensures whole { length (sets.marks_of taken.new) ≡ MOST_PAGES }
    ensures marks { (page : ℕ) → get_or (sets.marks_of taken.new) page false
        ≡ (nat_lt page FIRST_DATA || get_or (sets.marks_of taken.old) page false) }
{
    for page in 0..FIRST_DATA {
        taken.take(page);
    }
}
