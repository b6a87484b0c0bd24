//! Lines, and records of the journal.
use super::{Deed, is_asked, is_best, is_query, is_record, is_request_written};
use crate::calls::{Form, check, check_refused, check_shown, command, player, seated, table};
use rr_code::{Account, Command, Fault, Owner, Query, Request, TrainHolder, laws};
use rr_roster::{Corp, Private};
use rr_words::Name;
use std::process::Abort;

// The calls below have no contracts, so that what a test does costs its proof little.

// Stops at a text that isn't read as its query.
fn check_queries(rt: &impl Abort, queries: &[(&str, Query)]) {
    for &(text, query) in queries {
        check(rt, text, is_query(text, query), true);
    }
}

fn cash(table: Name, of: Account) -> Query {
    Query::Cash { table, of }
}

fn privates(table: Name, of: Owner) -> Query {
    Query::Privates { table, of }
}

fn trains(table: Name, of: TrainHolder) -> Query {
    Query::Trains { table, of }
}

fn book(table: Name, turn: u64) -> Query {
    Query::Book { table, turn }
}

// The request, where ann does what is played.
fn by_ann(rt: &impl Abort, request: Request<Deed>) -> Request<Command<'static>> {
    match request {
        Request::Play(deed) => Request::Play(deed.command_of(player(rt, "ann"))),
        Request::Back(turn) => Request::Back(turn),
        Request::Forget(turn) => Request::Forget(turn),
    }
}

#[test]
fn reads_each_query(rt: HostRuntime) {
    let table = table(&rt);
    let queries = [
        ("tables", Query::Tables),
        ("stamp t1", Query::Stamp { table }),
        ("turns t1", Query::Turns { table }),
        ("due t1", Query::Due { table }),
        ("limit t1", Query::Limit { table }),
        ("asked t1", Query::Asked { table }),
        ("order t1", Query::Order { table }),
        ("phase t1", Query::Phase { table }),
        ("iou t1", Query::Iou { table }),
    ];
    check_queries(&rt, &queries);
}

#[test]
fn reads_each_query_of_an_owner(rt: HostRuntime) {
    let table = table(&rt);
    let player = player(&rt, "ann");
    let holds = Query::Holds {
        table,
        player,
        corp: Corp::Nyc,
    };
    let corp = Corp::Co;
    let queries = [
        ("cash t1 bank", cash(table, Account::Bank)),
        ("cash t1 B&O", cash(table, Account::Corp(Corp::Bo))),
        ("cash t1 ann", cash(table, Account::Player(player))),
        ("privates t1 ERIE", privates(table, Owner::Corp(Corp::Erie))),
        ("privates t1 ann", privates(table, Owner::Player(player))),
        ("holds t1 ann NYC", holds),
        ("price t1 C&O", Query::Price { table, corp }),
    ];
    check_queries(&rt, &queries);
}

#[test]
fn reads_queries_of_trains_and_worth(rt: HostRuntime) {
    let table = table(&rt);
    let player = player(&rt, "ann");
    let queries = [
        ("trains t1 pool", trains(table, TrainHolder::Pool)),
        ("trains t1 B&M", trains(table, TrainHolder::Corp(Corp::Bm))),
        ("worth t1 ann", Query::Worth { table, player }),
    ];
    check_queries(&rt, &queries);
}

#[test]
fn reads_queries_of_a_turn(rt: HostRuntime) {
    let table = table(&rt);
    let queries = [
        ("book t1 0", book(table, 0)),
        ("book t1 17", book(table, 17)),
        ("book t1 9999999999", book(table, 9_999_999_999)),
    ];
    check_queries(&rt, &queries);
}

/// A line that wants a best run at the table t1, with its stamp and its corporation.
static BEST_RUNS: [(&str, u64, Corp); 2] = [
    ("7 t1 best PRR", 7, Corp::Prr),
    ("9999999999 t1 best B&O", 9_999_999_999, Corp::Bo),
];

#[test]
fn reads_that_the_best_run_is_wanted(rt: HostRuntime) {
    let table = table(&rt);
    for &(text, stamp, corp) in &BEST_RUNS {
        check(&rt, text, is_best(text, (stamp, table, corp)), true);
    }
}

#[test]
fn keeps_no_best_run_to_be_found(rt: HostRuntime) {
    let rt = &rt;
    check_refused(
        rt,
        Form::Record,
        "t1 best PRR
t1 best PRR best",
    );
    check_refused(
        rt,
        Form::Command,
        "best PRR
best
best PRR 2=1-2",
    );
    check_refused(
        rt,
        Form::Line,
        "7 t1 best
7 t1 best\x20
7 t1 best XYZ
7 t1 best SV
7 t1 best ann
7 t1 best PRR 2=1-2
7 t1 best PRR\x20
7 t1 Best PRR
7 t1 best  PRR
7 T1 best PRR
07 t1 best PRR
12345678901 t1 best PRR
7 best PRR
best t1 PRR
t1 best PRR",
    );
}

/// A line with its stamp and its request at the table t1.
static STAMPED: [(&str, u64, Request<Deed>); 4] = [
    (
        "9999999999 t1 buy ann",
        9_999_999_999,
        Request::Play(Deed::BuyPrivate),
    ),
    (
        "0 t1 par ann B&O 67",
        0,
        Request::Play(Deed::Par(Corp::Bo, 67)),
    ),
    ("57 t1 back 2", 57, Request::Back(2)),
    (
        "57 t1 forget 9999999999",
        57,
        Request::Forget(9_999_999_999),
    ),
];

#[test]
fn reads_stamped_requests(rt: HostRuntime) {
    let rt = &rt;
    let table = table(rt);
    for &(text, stamp, request) in &STAMPED {
        let is_read = is_asked(text, (stamp, table), &by_ann(rt, request));
        check(rt, text, is_read, true);
    }
}

static RECORDS: [(&str, Request<Deed>); 4] = [
    ("t1 buy ann", Request::Play(Deed::BuyPrivate)),
    (
        "t1 bid ann B&O 225",
        Request::Play(Deed::Bid(Private::Bo, 225)),
    ),
    ("t1 back 0", Request::Back(0)),
    ("t1 forget 31", Request::Forget(31)),
];

#[test]
fn reads_records(rt: HostRuntime) {
    let rt = &rt;
    for &(text, request) in &RECORDS {
        let is_read = is_record(rt, text, &by_ann(rt, request));
        check(rt, text, is_read, true);
    }
    check_refused(rt, Form::Record, "t1  buy ann");
}

static REQUESTS: [(&str, Request<Deed>); 3] = [
    ("done ann", Request::Play(Deed::Done)),
    ("back 10", Request::Back(10)),
    ("forget 0", Request::Forget(0)),
];

#[test]
fn writes_requests(rt: HostRuntime) {
    let rt = &rt;
    for &(text, request) in &REQUESTS {
        let is_written = is_request_written(rt, &by_ann(rt, request), text);
        check(rt, text, is_written, true);
    }
}

#[test]
fn refuses_other_requests_for_turns(rt: HostRuntime) {
    check_refused(
        &rt,
        Form::Line,
        "7 t1 back
7 t1 back\x20
7 t1 back x
7 t1 back 02
7 t1 back -1
7 t1 back 12345678901
7 t1 back 1 2
7 t1 Back 1
7 t1 forget
7 t1 forget t1
back t1 1",
    );
}

#[test]
fn reads_six_players(rt: HostRuntime) {
    let rt = &rt;
    let players = seated(command(rt, "open f e d c b a")).expect(rt, "players");
    let names = players.as_slice();
    check(rt, "players", names.len(), 6);
    let ends = [names.first().copied(), names.last().copied()];
    let wanted = [Some(player(rt, "f")), Some(player(rt, "a"))];
    check(rt, "first and last", ends, wanted);
}

#[test]
fn refuses_other_queries(rt: HostRuntime) {
    check_refused(
        &rt,
        Form::Line,
        "
\x20
tables\x20
Tables
cash t1 offer
cash t1 XYZ
cash T1 ann
stamp a2345678901234567
privates t1 bank
turns
turns t1 t2
due t1\x20
due  t1
due B&O
holds t1 ann
holds t1 PRR ann
holds t1 pool PRR
price t1
price t1 SV
price t1 PRR NYC
order
order t1 PRR
phase
phase t1 PRR
trains t1
trains t1 bank
trains t1 ann
trains t1 PRR NYC
iou
iou t1 bank
worth t1
worth t1 PRR
worth t1 pool
worth t1 ann bob
book
book t1
book t1\x20
book t1 x
book t1 01
book t1 -1
book t1 12345678901
book t1 1 2
book t1 1\x20
book 1 t1
book T1 1
Book t1 1",
    );
}

#[test]
fn refuses_other_stamped_commands(rt: HostRuntime) {
    check_refused(
        &rt,
        Form::Line,
        "7 t1 BUY b
 7 t1 buy a
7  t1 buy a
7 t1 buy a\x20
7 t1\tbuy a
7 t1 buy pool
7 t1 buy a234567890123
7 t1 buy
07 t1 buy a
12345678901 t0 buy a
t1 buy a
1 t1 open ann
1 t1 open ann bob ann
1 t1 open a b c d e f g
1 t1 tables",
    );
}

static FAULTS: [(Fault, &str); 2] = [
    (Fault::Malformed, "malformed line"),
    (Fault::OutOfMemory, "out of memory"),
];

#[test]
fn shows_faults(rt: HostRuntime) {
    for (fault, words) in &FAULTS {
        check_shown(&rt, fault, words);
    }
    laws::one_meaning();
    laws::one_spelling();
}
