//! What is ordered in a corporation's turn.
use crate::calls::{Form, check, check_refused};
use rr_orders::Order;
use rr_orders::laws::one_spelling;
use rr_roster::Corp;
use std::process::Abort;

// The calls below have no contracts, so that what a test does costs its proof little.

fn is_written(rt: &(impl Abort + AllocGlobal), order: &Order, text: &str) -> bool {
    let mut written = Vec::new(rt.alloc());
    order.write(&mut written).expect(rt, "memory");
    written.as_slice() == text.as_bytes()
}

fn is_order_of(text: &str, corp: Option<Corp>) -> bool {
    match Order::read(text.as_bytes()) {
        Some(order) => order.corp() == corp,
        None => false,
    }
}

// Whether the text is read as an order that is written so, and is the PRR's or no corporation's.
fn is_both(rt: &(impl Abort + AllocGlobal), text: &str) -> bool {
    match Order::read(text.as_bytes()) {
        Some(order) => {
            is_written(rt, &order, text) && matches!(order.corp(), Some(Corp::Prr) | None)
        }
        None => false,
    }
}

const LINES: &str = "lay PRR H12 57 5
station PRR H12 1
run PRR
run PRR 2=1-2 D=-
run PRR best
run PRR 2=1-2 best s1 b f
pay PRR
hold PRR
train PRR 2 bank
train PRR D pool
train PRR 3 NYC 9999999999 ann bob
trade PRR 4
drop PRR 2
private PRR SV 40
end PRR
force PRR
raise ann NYC 0
raise bob B&O 9999999999
bankrupt ann";

#[test]
fn writes_what_it_reads(rt: HostRuntime) {
    let rt = &rt;
    for line in LINES.lines() {
        check(rt, line, is_both(rt, line), true);
    }
}

#[test]
fn refuses_what_is_no_order(rt: HostRuntime) {
    check_refused(
        &rt,
        Form::Order,
        "pay XYZ
lay PRR H12 57 6
lay PRR H12 0 5
train PRR 7 bank
train PRR 3 NYC 10000000000 ann bob
train PRR 3 NYC 40 ann
private PRR SV 040
hold  PRR
run PRR 9=1
run PRR 2=1-2 best b best
end PRR now
best PRR",
    );
}

#[test]
fn refuses_what_forces_no_train(rt: HostRuntime) {
    check_refused(
        &rt,
        Form::Order,
        "force
force ann
force PRR 2
force PRR bank
Force PRR
raise
raise PRR 1
raise ann PRR
raise ann PRR 01
raise ann PRR 10000000000
raise ann PRR 1 pool
raise ann 1 PRR
raise pool PRR 1
raise ann SV 1
bankrupt
bankrupt PRR
bankrupt bank
bankrupt ann bob
bankrupt  ann",
    );
}

static WHOSE: [(&str, Option<Corp>); 4] = [
    ("end NYC", Some(Corp::Nyc)),
    ("force NYC", Some(Corp::Nyc)),
    ("raise ann NYC 1", None),
    ("bankrupt ann", None),
];

#[test]
fn tells_whose_order_it_is(rt: HostRuntime) {
    for &(text, corp) in &WHOSE {
        check(&rt, text, is_order_of(text, corp), true);
    }
}

#[test]
fn laws_are_called() {
    one_spelling();
}
