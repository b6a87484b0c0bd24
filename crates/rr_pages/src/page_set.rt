mod lanes;

ghost use Rattle.std.specs.Prelude.{◌≡◌, ℕ, ◌+◌, ◌*◌, ◌/◌, ◌<◌, ◌||◌, not, false, get_or, if◌then◌else◌, length, position, replicate, set, slice_index, IfOk};
ghost use Rattle.std.specs.Int.{bit_at};
ghost use Rattle.std.specs.Simd.Lanes.{zip2};
ghost use Rattle.rr_pages.specs.Marks.{AreWordsFor};
ghost use Rattle.rr_pages.specs.Sets.{IsEmpty, marked};

use crate::page_set::lanes::{first_zero, or_words};
use std::alloc::{AllocError, Global};

/// A set of pages under a count that stays, one bit a page. Once made it takes no more memory.
#[derive(Drop)]
pub struct PageSet {
    pages: u32,
    words: Vec<u64>,
    ghost sound: { ∥ AreWordsFor pages words.items ∥₁ },
}

impl PageSet {
    ghost use Rattle.rr_pages.specs.PageSet.{marks_of};

    /// An empty set, with room for so many pages.
    pub fn new(alloc: Global, pages: u32) -> Result<PageSet, AllocError>
        ensures empty { IfOk result (λ set. IsEmpty (marks_of set)) }
        ensures whole { IfOk result (λ set. length (marks_of set) ≡ pages) }
    {
        let words = no_words(alloc, (pages as usize + 63) / 64)?;
        Ok(PageSet { pages, words })
    }

    /// How many pages there are, taken or not.
    pub fn pages(&self) -> u32
        ensures { result ≡ length (marks_of self.now) }
    {
        self.pages
    }

    /// Whether a page is taken. Past the last page none is.
    pub fn has(&self, page: u32) -> bool
        ensures { result ≡ get_or (marks_of self.now) page false }
    {
        match self.words.get(page as usize / 64) {
            None => false,
            Some(word) => (*word >> (page % 64)) & 1 == 1,
        }
    }

    /// Takes a page.
    pub fn take(&mut self, page: u32)
        requires { page < length (marks_of self.old) }
        ensures { marks_of self.new ≡ marked (marks_of self.old) page }
    {
        self.words[page as usize / 64] |= 1 << (page % 64);
    }

    /// Frees a page.
    pub fn free(&mut self, page: u32)
        requires { page < length (marks_of self.old) }
        ensures { marks_of self.new ≡ set (marks_of self.old) page false }
    {
        self.words[page as usize / 64] &= !(1 << (page % 64));
    }

    /// Frees all pages.
    pub fn clear(&mut self)
        ensures empty { IsEmpty (marks_of self.new) }
        ensures whole { length (marks_of self.new) ≡ length (marks_of self.old) }
    {
        self.words.fill(0);
    }

    /// The words: bit i of word j, the least first, is 1 where page 64 j + i is taken, and 0 past the last page.
    pub fn words(&self) -> &[u64]
        ensures count { length result.now ≡ (length (marks_of self.now) + 63) / 64 }
        ensures bits { (j i : ℕ) → i < 64 → bit_at (slice_index result.now j) i
            ≡ (if get_or (marks_of self.now) (64 * j + i) false then 1 else 0) }
    {
        &self.words
    }

    /// Takes each page that the other set has taken.
    pub fn union(&mut self, other: &PageSet)
        requires { length (marks_of other.now) ≡ length (marks_of self.old) }
        ensures { marks_of self.new ≡ zip2 (λ own others. own || others) (marks_of self.old) (marks_of other.now) }
    {
        or_words(&mut self.words, &other.words);
    }

    /// The first page that isn't taken, if there is one.
    pub fn first_free(&self) -> Option<u32>
        ensures { result ≡ position not (marks_of self.now) }
    {
        let pages = self.pages as usize;
        let page = first_zero(&self.words);
        if page < pages {
            Some(page as u32)
        } else {
            None
        }
    }
}

fn no_words(alloc: Global, count: usize) -> Result<Vec<u64>, AllocError>
    ensures { IfOk result (λ words. words.items ≡ replicate count 0) }
{
    vec![in alloc; 0; count]
}
