//! The best runs of PRR on the small board, with its token in A.
use crate::fixtures::{at_home, small_kit, with_train};
use rr_books::{Corp, Kind};
use rr_desk::Position;
use rr_orders::Order;
use rr_search::Fault;
use rr_search::best_run::laws::{few_links_fit, trains_may_stay};
use rr_search::best_run::{BestRun, best_run};
use std::alloc::Global;
use std::process::Abort;

// The calls below have no contracts, so that what a test does costs its proof little.

/// What is found in at most so many bytes.
fn found(rt: &impl Abort, alloc: Global, table: &Position, most: usize) -> Result<BestRun, Fault> {
    best_run(alloc, &small_kit(rt, alloc), table, Corp::Prr, most)
}

/// Whether this revenue and these words of a sheet are found, and the words are read as an order.
fn finds(rt: &impl Abort, alloc: Global, table: &Position, revenue: i64, sheet: &[u8]) -> bool {
    match found(rt, alloc, table, 32_000) {
        Ok(run) => is_found(&run, revenue, sheet),
        Err(_) => false,
    }
}

fn is_found(run: &BestRun, revenue: i64, sheet: &[u8]) -> bool {
    run.revenue().0 == revenue && run.sheet() == sheet && Order::read(run.as_bytes()).is_some()
}

/// Whether none is found in so few bytes.
fn finds_none(rt: &impl Abort, alloc: Global, table: &Position) -> bool {
    match found(rt, alloc, table, 20) {
        Ok(_) => false,
        Err(fault) => fault == Fault::NoCertificate,
    }
}

#[test]
fn a_train_runs_where_it_earns_most(rt: HostRuntime) {
    let alloc = rt.alloc();
    let two = with_train(&rt, alloc, Kind::Two);
    let diesel = with_train(&rt, alloc, Kind::Diesel);
    let short = finds(&rt, alloc, &two, 30, b"2=1-2-3");
    assert!(rt; short && finds(&rt, alloc, &diesel, 100, b"D=1-2-3-4-5-6-7"));
}

#[test]
fn a_corporation_without_trains_earns_nothing(rt: HostRuntime) {
    let alloc = rt.alloc();
    assert!(rt; finds(&rt, alloc, &at_home(&rt, alloc), 0, b""));
    trains_may_stay();
    few_links_fit();
}

#[test]
fn a_command_that_is_too_long_is_not_found(rt: HostRuntime) {
    let alloc = rt.alloc();
    assert!(rt; finds_none(&rt, alloc, &with_train(&rt, alloc, Kind::Two)));
}
