ghost use Rattle.std.specs.Prelude.{◌≡◌, ◌<◌, false, get_or, length, IfOk};
ghost use Rattle.rr_pages.specs.PageSet as sets;
ghost use Rattle.rr_pages.specs.Sets.{IsEmpty, marked};
ghost use Rattle.rr_pages.specs.declared.page.TheConstants.{MOST_PAGES};

use crate::PageSet;
use crate::page::MOST_PAGES;
use std::alloc::{AllocError, Global};

/// The pages that a root reaches, of the 65,536 that a file may have. Once made it takes no more memory.
#[derive(Drop)]
pub struct ReachedPages {
    pub(crate) set: PageSet,
    ghost whole: { length (sets.marks_of set) ≡ MOST_PAGES },
}

impl ReachedPages {
    ghost use Rattle.rr_pages.specs.ReachedPages.{marks_of};

    /// No page.
    pub fn new(alloc: Global) -> Result<ReachedPages, AllocError>
        ensures empty { IfOk result (λ reached. IsEmpty (marks_of reached)) }
        ensures whole { IfOk result (λ reached. length (marks_of reached) ≡ MOST_PAGES) }
    {
        Ok(ReachedPages {
            set: PageSet::new(alloc, MOST_PAGES)?,
        })
    }

    /// Whether this page is reached.
    pub fn has(&self, page: u32) -> bool
        ensures { result ≡ get_or (marks_of self.now) page false }
    {
        self.set.has(page)
    }

    /// This page is reached too.
    pub fn take(&mut self, page: u32)
        requires { page < MOST_PAGES }
        ensures marks { marks_of self.new ≡ marked (marks_of self.old) page }
        ensures whole { length (marks_of self.old) ≡ MOST_PAGES }
    {
        self.set.take(page);
    }

    /// No page is reached any more.
    pub fn clear(&mut self)
        ensures empty { IsEmpty (marks_of self.new) }
        ensures whole { length (marks_of self.new) ≡ MOST_PAGES }
    {
        self.set.clear();
    }
}
