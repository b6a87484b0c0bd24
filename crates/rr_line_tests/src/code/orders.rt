//! Orders among the lines and the records.
use super::{is_asked, is_request_written};
use crate::calls::{Form, check, check_refused, table};
use rr_code::{Command, Order, Request, read_record};
use rr_roster::Corp;
use rr_words::HexName;
use std::process::Abort;

#[test]
fn reads_an_order_with_its_stamp(rt: HostRuntime) {
    let rt = &rt;
    let hex = HexName::read(b"E5").expect(rt, "a hex's name");
    let order = Order::Lay {
        corp: Corp::Prr,
        hex,
        tile: 57,
        turn: 3,
    };
    let request = Request::Play(Command::Order(order));
    let is_read = is_asked("7 t1 lay PRR E5 57 3", (7, table(rt)), &request);
    check(rt, "line", is_read, true);
}

// Whether it is the PRR's run, with a sheet and a certificate of these words.
fn is_best_run(request: &Request<Command>, sheet_words: &str, certificate_words: &str) -> bool {
    match request {
        Request::Play(
            Command::Order(
                Order::RunBest {
                    corp,
                    sheet,
                    certificate,
                },
            ),
        ) => {
            *corp == Corp::Prr
                && sheet.as_bytes() == sheet_words.as_bytes()
                && certificate.as_bytes() == certificate_words.as_bytes()
        }
        _ => false,
    }
}

#[test]
fn reads_the_record_of_a_best_run(rt: HostRuntime) {
    let rt = &rt;
    let record = b"t1 run PRR 2=1-2 best s1 b f";
    let (name, request) = read_record(record).expect(rt, "a record");
    let text = "run PRR 2=1-2 best s1 b f";
    let is_right = [
        name == table(rt),
        is_request_written(rt, &request, text),
        is_best_run(&request, "2=1-2", "s1 b f"),
    ];
    check(rt, "record", is_right, [true; 3]);
}

// Whether the request of the record is written so.
fn is_written_of(rt: &(impl Abort + AllocGlobal), record: &str, text: &str) -> bool {
    match read_record(record.as_bytes()) {
        Ok((_table, request)) => is_request_written(rt, &request, text),
        Err(_) => false,
    }
}

/// A record of an order, and what is written of its request.
static RECORDS: [(&str, &str); 12] = [
    ("t1 station PRR H12 1", "station PRR H12 1"),
    ("t1 run PRR", "run PRR"),
    ("t1 pay PRR", "pay PRR"),
    ("t1 hold PRR", "hold PRR"),
    ("t1 train PRR 2 bank", "train PRR 2 bank"),
    ("t1 trade PRR 4", "trade PRR 4"),
    ("t1 drop PRR 2", "drop PRR 2"),
    ("t1 private PRR SV 40", "private PRR SV 40"),
    ("t1 end PRR", "end PRR"),
    ("t1 force PRR", "force PRR"),
    ("t1 raise ann PRR 2", "raise ann PRR 2"),
    ("t1 bankrupt ann", "bankrupt ann"),
];

#[test]
fn reads_records_of_orders(rt: HostRuntime) {
    let rt = &rt;
    for &(record, text) in &RECORDS {
        check(rt, record, is_written_of(rt, record, text), true);
    }
}

#[test]
fn refuses_other_orders(rt: HostRuntime) {
    check_refused(
        &rt,
        Form::Line,
        "7 t1 lay PRR E5 57 3 4
7 t1 lay PRR E5 57
7 lay PRR E5 57 3
lay PRR E5 57 3
7 t1 run PRR 2=1-2 best b best
7 t1 end PRR now
7 t1 order PRR
7 t1 force ann
7 t1 force PRR\x20
7 t1 raise ann PRR 1\x20
7 t1 raise PRR ann 2
7 t1 bankrupt PRR",
    );
}
