//! The laws on files and worlds: each is called, beside a store on a new file.
use crate::calls::table_count;
use crate::files::{new_file, new_store};
use rr_disk::Disk;
use rr_store::Store;
use rr_store::laws::{
    calls_are_events, few_are_left, numbers_are_in_the_file, one_world, openings_play_few,
    sessions_are_safe,
};
use rr_world_laws::{OneType, OneTypeMore};
use std::process::Abort;

// The calls below have no contracts, so that what the test does costs its proof little.

fn call_laws_of_worlds() {
    one_world();
    few_are_left();
    openings_play_few();
    rr_world_laws::whatever_comes_is_sound();
    rr_world_laws::worlds_are_sound();
    rr_world_laws::files_are_sound();
    rr_world_laws::right_kits_are_not_wrong();
    rr_world_laws::standing_files_open();
    rr_world_laws::worlds_differ();
    rr_world_laws::snapshots_are_short();
}

fn call_laws_of_sessions<D: Disk, E: Disk>() {
    calls_are_events::<D>();
    sessions_are_safe::<D>();
    numbers_are_in_the_file::<D>();
    rr_world_laws::sessions_are_sound::<D>();
    rr_world_laws::sessions_go_on::<D, E>();
    rr_world_laws::sessions_that_go_on_are_sound::<D, E>();
    rr_world_laws::services_go_on::<D, E>();
    rr_world_laws::services_keep_in_time::<D>();
    rr_world_laws::histories_play_few::<OneTypeMore<OneType<D>, E>>();
}

fn call_laws_of_a_store<D: Disk + Drop>(store: &Store<D>) {
    rr_world_laws::carried_files_stand(store);
    call_laws_of_sessions::<D, D>();
}

#[test]
fn laws_are_called(rt: HostRuntime) {
    let store = new_store(&rt);
    call_laws_of_worlds();
    call_laws_of_a_store(&store);
    assert!(rt; table_count(&store) == Ok(0));
}

// An opening as histories have it is one, and plays no command of a new file.
fn plays_of(rt: &(impl Abort + AllocGlobal)) -> Option<u64> {
    match rr_world_laws::open_in_a_history(rt.alloc(), new_file(rt)) {
        Ok(store) => Some(store.replayed()),
        Err(_) => None,
    }
}

#[test]
fn histories_open_files(rt: HostRuntime) {
    assert!(rt; plays_of(&rt) == Some(0));
}
