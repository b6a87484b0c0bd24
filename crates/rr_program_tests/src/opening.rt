//! A disk that isn't opened, and the laws. Wrong kits and damaged files are tried on the built program by
//! `tools/try-the-program` and `tools/try-the-file`.
use crate::calls::open;
use crate::kits::empty;
use rr_disk::{Disk, MemoryDisk};
use rr_moderator::laws::{
    alone, best_runs_are_lawful, best_runs_earn_alike, none_fails_while_working,
};
use rr_moderator::{Fault, Reply};
use std::alloc::Global;
use std::process::Abort;

/// Why a disk isn't opened.
fn fault_of<D: Disk + Drop>(alloc: Global, disk: D) -> Option<Fault> {
    match open(alloc, disk) {
        Ok(_) => None,
        Err(refused) => Some(Fault::from(refused.fault)),
    }
}

/// Stops where a fault is told in other words.
fn check_told(rt: &(impl Abort + AllocGlobal), fault: Fault, told: &[u8]) {
    let mut reply = Reply::new(rt.alloc()).expect(rt, "memory");
    fault.write(&mut reply);
    assert!(rt; reply.as_bytes() == told);
}

#[test]
fn an_empty_disk_is_no_store(rt: HostRuntime) {
    let rt = &rt;
    let fault = fault_of(rt.alloc(), empty(rt)).expect(rt, "a fault");
    check_told(rt, fault, b"no 64 not a store\n");
}

// The laws do nothing. Called for any disk one costs its proof less than for a certain one.
fn call_law_of_disks<D: Disk + Drop>() {
    none_fails_while_working::<D>();
}

#[test]
fn laws_are_called() {
    alone();
    best_runs_earn_alike();
    best_runs_are_lawful();
    call_law_of_disks::<MemoryDisk>();
}
