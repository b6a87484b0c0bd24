use rr_pages::{PageSet, ReachedPages};
use std::alloc::{AllocError, Global};

// How many pages there are, which one is the last, and which one the first.
static ROWS: [(u32, Option<u32>, Option<u32>); 8] = [
    (0, None, None),
    (1, Some(0), Some(0)),
    (63, Some(62), Some(0)),
    (64, Some(63), Some(0)),
    (65, Some(64), Some(0)),
    (511, Some(510), Some(0)),
    (512, Some(511), Some(0)),
    (513, Some(512), Some(0)),
];

// The calls below have no contracts, so that what a test does costs its proof little.

fn take(set: &mut PageSet, page: u32) {
    if page < set.pages() {
        set.take(page);
    }
}

fn free(set: &mut PageSet, page: Option<u32>) {
    match page {
        Some(page) if page < set.pages() => set.free(page),
        _ => {}
    }
}

// A set of so many pages that has each one that this number divides.
fn multiples(alloc: Global, pages: u32, number: u32) -> Result<PageSet, AllocError> {
    let mut set = PageSet::new(alloc, pages)?;
    for page in 0..pages {
        if page.checked_rem(number) == Some(0) {
            take(&mut set, page);
        }
    }
    Ok(set)
}

// The first free page once all are taken; once the last one alone is free; and once the first one alone is.
fn first_free_in_turn(
    alloc: Global,
    pages: u32,
    last: Option<u32>,
    first: Option<u32>,
) -> Result<[Option<u32>; 3], AllocError> {
    let mut set = multiples(alloc, pages, 1)?;
    let none = set.first_free();
    free(&mut set, last);
    let of_last = set.first_free();
    if let Some(page) = last {
        take(&mut set, page);
    }
    free(&mut set, first);
    Ok([none, of_last, set.first_free()])
}

// The first count of pages at which another page is told.
fn unlike_first_free(alloc: Global) -> Result<Option<u32>, AllocError> {
    for (pages, last, first) in ROWS.iter() {
        if first_free_in_turn(alloc, *pages, *last, *first)? != [None, *last, *first] {
            return Ok(Some(*pages));
        }
    }
    Ok(None)
}

#[test]
fn the_first_free_page(rt: HostRuntime) {
    let unlike = unlike_first_free(rt.alloc()).expect(&rt, "memory");
    assert!(rt; unlike == None);
}

// The first page which sets joined have otherwise than one of them has it; past the last page none has any.
fn unlike_joined(alloc: Global, pages: u32) -> Result<Option<u32>, AllocError> {
    let mut set = multiples(alloc, pages, 3)?;
    let fives = multiples(alloc, pages, 5)?;
    if set.pages() == fives.pages() {
        set.union(&fives);
    }
    for page in 0..1000 {
        if set.has(page) != (page < pages && (page % 3 == 0 || page % 5 == 0)) {
            return Ok(Some(page));
        }
    }
    Ok(None)
}

#[test]
fn sets_are_joined(rt: HostRuntime) {
    for (pages, _, _) in ROWS.iter() {
        let unlike = unlike_joined(rt.alloc(), *pages).expect(&rt, "memory");
        assert!(rt; unlike == None);
    }
}

#[test]
fn words_have_a_bit_a_page(rt: HostRuntime) {
    let mut set = multiples(rt.alloc(), 130, 65).expect(&rt, "memory");
    take(&mut set, 129);
    assert!(rt; set.words() == [1, 2, 2].as_slice());
    set.clear();
    assert!(rt; set.words() == [0, 0, 0].as_slice());
}

// Whether a page is reached, the last one, and the one before it: once the last one is, and once none is.
fn reached_in_turn(alloc: Global) -> Result<[bool; 3], AllocError> {
    let mut reached = ReachedPages::new(alloc)?;
    reached.take(65_535);
    let [last, before] = [reached.has(65_535), reached.has(65_534)];
    reached.clear();
    Ok([last, before, reached.has(65_535)])
}

#[test]
fn pages_are_reached(rt: HostRuntime) {
    let told = reached_in_turn(rt.alloc()).expect(&rt, "memory");
    assert!(rt; told == [true, false, false]);
}
