//! Texts of commands, and how each is read and written.
use super::{Deed, check_deeds, is_written};
use crate::calls::{Form, check, check_refused, command};
use rr_roster::{Corp, Private, ShareSource};

static TEXTS: [&str; 6] = [
    "open ann bob",
    "open a b c d e f",
    "buy ann",
    "bid ann C&SL 45",
    "pass ann",
    "par ann B&O 100",
];

#[test]
fn writes_what_it_reads(rt: HostRuntime) {
    let rt = &rt;
    for &text in &TEXTS {
        check(rt, text, is_written(rt, &command(rt, text), text), true);
    }
}

// The tables below have texts, and what a player does by each.

static BIDS: [(&str, Deed); 8] = [
    ("bid ann SV 25", Deed::Bid(Private::Sv, 25)),
    ("bid ann C&SL 45", Deed::Bid(Private::Csl, 45)),
    ("bid ann D&H 75", Deed::Bid(Private::Dh, 75)),
    ("bid ann M&H 115", Deed::Bid(Private::Mh, 115)),
    ("bid ann C&A 165", Deed::Bid(Private::Ca, 165)),
    ("bid ann B&O 225", Deed::Bid(Private::Bo, 225)),
    ("bid ann B&O 0", Deed::Bid(Private::Bo, 0)),
    (
        "bid ann B&O 9999999999",
        Deed::Bid(Private::Bo, 9_999_999_999),
    ),
];

#[test]
fn reads_bids(rt: HostRuntime) {
    check_deeds(&rt, "ann", &BIDS);
}

static PARS: [(&str, Deed); 8] = [
    ("par bob PRR 100", Deed::Par(Corp::Prr, 100)),
    ("par bob NYC 90", Deed::Par(Corp::Nyc, 90)),
    (
        "par bob CPR 9999999999",
        Deed::Par(Corp::Cpr, 9_999_999_999),
    ),
    ("par bob B&O 67", Deed::Par(Corp::Bo, 67)),
    ("par bob C&O 0", Deed::Par(Corp::Co, 0)),
    ("par bob ERIE 82", Deed::Par(Corp::Erie, 82)),
    ("par bob NYNH 71", Deed::Par(Corp::Nynh, 71)),
    ("par bob B&M 76", Deed::Par(Corp::Bm, 76)),
];

#[test]
fn reads_pars(rt: HostRuntime) {
    check_deeds(&rt, "bob", &PARS);
}

static OF_ANN: [(&str, Deed); 2] = [("buy ann", Deed::BuyPrivate), ("pass ann", Deed::Pass)];

static OF_A1: [(&str, Deed); 2] = [("buy a1", Deed::BuyPrivate), ("pass a1", Deed::Pass)];

static OF_TWELVE_LETTERS: [(&str, Deed); 2] = [
    ("buy abcdefghijkl", Deed::BuyPrivate),
    ("pass abcdefghijkl", Deed::Pass),
];

#[test]
fn reads_purchases_and_passes(rt: HostRuntime) {
    let rt = &rt;
    check_deeds(rt, "ann", &OF_ANN);
    check_deeds(rt, "a1", &OF_A1);
    check_deeds(rt, "abcdefghijkl", &OF_TWELVE_LETTERS);
}

static SHARE_PURCHASES: [(&str, Deed); 4] = [
    (
        "buy ann PRR offer",
        Deed::BuyShare(Corp::Prr, ShareSource::Offer),
    ),
    (
        "buy ann B&O pool",
        Deed::BuyShare(Corp::Bo, ShareSource::Pool),
    ),
    (
        "buy ann NYNH pool",
        Deed::BuyShare(Corp::Nynh, ShareSource::Pool),
    ),
    (
        "buy ann B&M offer",
        Deed::BuyShare(Corp::Bm, ShareSource::Offer),
    ),
];

#[test]
fn reads_share_purchases(rt: HostRuntime) {
    check_deeds(&rt, "ann", &SHARE_PURCHASES);
}

static SALES: [(&str, Deed); 4] = [
    ("sell bob ERIE 1", Deed::Sell(Corp::Erie, 1)),
    ("sell bob C&O 5", Deed::Sell(Corp::Co, 5)),
    ("sell bob CPR 0", Deed::Sell(Corp::Cpr, 0)),
    (
        "sell bob NYC 9999999999",
        Deed::Sell(Corp::Nyc, 9_999_999_999),
    ),
];

#[test]
fn reads_sales(rt: HostRuntime) {
    check_deeds(&rt, "bob", &SALES);
}

static SWAPS_AND_AN_END: [(&str, Deed); 3] = [
    ("swap cat9 offer", Deed::Swap(ShareSource::Offer)),
    ("swap cat9 pool", Deed::Swap(ShareSource::Pool)),
    ("done cat9", Deed::Done),
];

#[test]
fn reads_swaps_and_the_end_of_a_turn(rt: HostRuntime) {
    check_deeds(&rt, "cat9", &SWAPS_AND_AN_END);
}

#[test]
fn refuses_other_openings(rt: HostRuntime) {
    check_refused(
        &rt,
        Form::Command,
        "open
open\x20
open ann
open ann ann
open ann bob ann
open a b c d e f g
open ann bob\x20
open ann  bob
 open ann bob
open ann pool
open bank ann
open ann offer
open ann Bob
open abcdefghijklm b
open ann 1bob
open ann,bob
Open ann bob",
    );
}

#[test]
fn refuses_other_purchases_and_passes(rt: HostRuntime) {
    check_refused(
        &rt,
        Form::Command,
        "
buy
buy\x20
buy ann bob
buy ann\x20
 buy ann
buy  ann
buy pool
buy offer
buy bank
buy Ann
buyann
BUY ann
buy an-n
buy abcdefghijklm
pass
pass ann bob
pass ann\x20
pass  ann
pass pool
pass ann 5
Pass ann",
    );
}

#[test]
fn refuses_other_bids(rt: HostRuntime) {
    check_refused(
        &rt,
        Form::Command,
        "bid ann B&O 10000000000
bid ann B&O 0225
bid ann B&O 00
bid ann B&O
bid ann B&O\x20
bid ann B&O 225\x20
bid ann B&O 225 5
bid ann  B&O 225
bid ann B&O  225
bid ann ERIE 225
bid ann C&O 225
bid ann b&o 225
bid pool B&O 225
bid B&O 225
bid ann 225 B&O
bid ann B&O -5
bid ann B&O +5
bid ann B&O 2x5
bid ann B&O 22.5
bid
bid ann
Bid ann B&O 225",
    );
}

#[test]
fn refuses_other_pars(rt: HostRuntime) {
    check_refused(
        &rt,
        Form::Command,
        "par
par ann
par ann B&O
par ann B&O\x20
par ann B&O 067
par ann B&O 12345678901
par ann C&A 67
par ann SV 67
par ann b&o 67
par ann B&O 67 67
par ann B&O 67\x20
par B&O 67
par offer B&O 67
par ann 67 B&O
par ann B&O -67
parann B&O 67
Par ann B&O 67",
    );
}

#[test]
fn refuses_other_share_purchases(rt: HostRuntime) {
    check_refused(
        &rt,
        Form::Command,
        "buy ann PRR
buy ann PRR\x20
buy ann PRR bank
buy ann PRR bob
buy ann PRR Pool
buy ann PRR pool\x20
buy ann PRR pool 1
buy ann PRR  pool
buy ann C&A offer
buy ann prr offer
buy ann pool PRR
buy ann pool
buy pool PRR offer
buy PRR offer",
    );
}

#[test]
fn refuses_other_sales_and_swaps(rt: HostRuntime) {
    check_refused(
        &rt,
        Form::Command,
        "sell
sell bob ERIE
sell bob ERIE\x20
sell bob ERIE 01
sell bob ERIE 10000000000
sell bob ERIE 1\x20
sell bob ERIE 1 pool
sell bob SV 1
sell bob 1 ERIE
sell bank ERIE 1
Sell bob ERIE 1
swap
swap cat
swap cat bank
swap cat NYC offer
swap cat offer\x20
swap offer
done
done cat 1
done cat\x20
done pool
donecat",
    );
}
