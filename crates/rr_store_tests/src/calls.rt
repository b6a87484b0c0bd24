//! Calls of a store, each with what it is to give. The functions have no contracts, so that what a test does costs its
//! proof little.
use rr_code::read_record;
use rr_disk::Disk;
use rr_store::{Fault, PutOff, Store, Table, Tick};
use rr_words::Name;
use std::process::Abort;

// How many tables there are, the number of the last request, and how many ticks are left.
pub(crate) type State = (usize, u64, usize);

// The stamp, the floor, the turns and the number of kept commands of a table.
pub(crate) type Standing = (u64, u64, u64, usize);

// A call, and what it is to give.
#[derive(Clone, Copy)]
pub(crate) enum Call {
    // A stamp, a record, and how its commit ends.
    Commit(u64, &'static [u8], Result<u64, Fault>),
    // Passes at the table t1, one behind the other, from one stamp up to another. Each is accepted.
    Passes(u64, u64),
    // How a tick ends, and how many are left behind it.
    Tick(Result<(Tick, usize), Fault>),
    // A whole checkpoint, which is made.
    Checkpoint,
    State(Result<State, Fault>),
    // The name of a table, and how it stands.
    Stands(&'static [u8], Result<Standing, Fault>),
    // The name of the table at a place, if one stands there.
    NameAt(usize, Option<&'static [u8]>),
    // How many commands the opening played.
    Replayed(u64),
    // Why the first step of a checkpoint was put off with the last request that was taken.
    PutOff(Option<PutOff>),
    IsBroken(bool),
    // The trade of the kit's diesel.
    Trade(u16),
}

// Commits the request of this record with this stamp.
fn commit<D: Disk + Drop>(store: &mut Store<D>, stamp: u64, record: &[u8]) -> Result<u64, Fault> {
    let Ok((name, request)) = read_record(record) else {
        return Err(Fault::OutOfMemory);
    };
    store.commit(&name, stamp, &request)
}

// One pass behind the other: those of b have even stamps.
fn pass<D: Disk + Drop>(store: &mut Store<D>, stamp: u64) -> Result<u64, Fault> {
    if stamp % 2 == 0 {
        return commit(store, stamp, b"t1 pass b");
    }
    commit(store, stamp, b"t1 pass a")
}

fn pass_on<D: Disk + Drop>(store: &mut Store<D>, from: u64, to: u64) -> Result<(), Fault> {
    for stamp in from..to {
        pass(store, stamp)?;
    }
    Ok(())
}

fn tick<D: Disk + Drop>(store: &mut Store<D>) -> Result<Tick, Fault> {
    store.tick()
}

fn ticks_left<D: Disk + Drop>(store: &Store<D>) -> usize {
    store.ticks_left()
}

fn tick_and_left<D: Disk + Drop>(store: &mut Store<D>) -> Result<(Tick, usize), Fault> {
    Ok((tick(store)?, ticks_left(store)))
}

fn checkpoint<D: Disk + Drop>(store: &mut Store<D>) -> Result<(), Fault> {
    store.checkpoint()
}

pub(crate) fn table_count<D: Disk + Drop>(store: &Store<D>) -> Result<usize, Fault> {
    store.count()
}

fn last_number<D: Disk + Drop>(store: &Store<D>) -> Result<u64, Fault> {
    store.last()
}

fn state<D: Disk + Drop>(store: &Store<D>) -> Result<State, Fault> {
    Ok((table_count(store)?, last_number(store)?, ticks_left(store)))
}

fn table<'a, D: Disk + Drop>(store: &'a Store<D>, name: &Name) -> Result<&'a Table, Fault> {
    store.table(name)
}

fn standing_of(table: &Table) -> Standing {
    (
        table.stamp(),
        table.floor(),
        table.turns(),
        table.commands().len(),
    )
}

fn standing<D: Disk + Drop>(store: &Store<D>, word: &[u8]) -> Result<Standing, Fault> {
    let Some(name) = Name::table(word) else {
        return Err(Fault::OutOfMemory);
    };
    Ok(standing_of(table(store, &name)?))
}

// Whether the table at this place has this name, or none stands there.
fn has_name<D: Disk + Drop>(store: &Store<D>, place: usize, word: Option<&[u8]>) -> bool {
    match store.name(place) {
        Ok(Some(name)) => Some(name.as_bytes()) == word,
        Ok(None) => word.is_none(),
        Err(_) => false,
    }
}

fn replayed<D: Disk + Drop>(store: &Store<D>) -> u64 {
    store.replayed()
}

fn put_off<D: Disk + Drop>(store: &Store<D>) -> Option<PutOff> {
    store.put_off()
}

fn is_broken<D: Disk + Drop>(store: &Store<D>) -> bool {
    store.is_broken()
}

fn trade<D: Disk + Drop>(store: &Store<D>) -> u16 {
    store.kit().roster().trade()
}

// Whether a call gives what it is to give.
fn is_right<D: Disk + Drop>(store: &mut Store<D>, call: Call) -> bool {
    match call {
        Call::Commit(stamp, record, end) => commit(store, stamp, record) == end,
        Call::Passes(from, to) => pass_on(store, from, to) == Ok(()),
        Call::Tick(end) => tick_and_left(store) == end,
        Call::Checkpoint => checkpoint(store) == Ok(()),
        Call::State(told) => state(store) == told,
        Call::Stands(word, told) => standing(store, word) == told,
        Call::NameAt(place, word) => has_name(store, place, word),
        Call::Replayed(count) => replayed(store) == count,
        Call::PutOff(reason) => put_off(store) == reason,
        Call::IsBroken(told) => is_broken(store) == told,
        Call::Trade(dollars) => trade(store) == dollars,
    }
}

// The place of the first call that gives something else.
fn first_other<D: Disk + Drop>(store: &mut Store<D>, calls: &[Call]) -> Option<usize> {
    for (place, call) in calls.iter().enumerate() {
        if !is_right(store, *call) {
            return Some(place);
        }
    }
    None
}

// Makes these calls, one behind the other.
pub(crate) fn check_calls<D: Disk + Drop>(rt: &impl Abort, store: &mut Store<D>, calls: &[Call]) {
    assert_eq!(rt; first_other(store, calls), None);
}
