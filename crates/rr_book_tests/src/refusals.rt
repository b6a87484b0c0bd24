//! The numbers and texts of refusals, and the numbers of the clauses that a sheet may break.
use crate::opening::check;
use rr_books::{Clause, Refusal};

static REFUSALS: [(Refusal, u8, &str); 34] = [
    (Refusal::NoSuchName, 1, "no such name"),
    (Refusal::TooLittleCash, 2, "too little cash"),
    (Refusal::NotYourTurn, 20, "not your turn"),
    (Refusal::BidTooLow(75), 21, "bid too low 75"),
    (Refusal::NotForSale, 22, "not for sale"),
    (Refusal::CashTiedUp, 23, "cash tied up"),
    (Refusal::CertificateLimit, 24, "certificate limit"),
    (Refusal::OverSixty, 25, "over 60 percent"),
    (Refusal::SoldThisRound, 26, "sold this round"),
    (Refusal::FirstStockRound, 27, "first stock round"),
    (Refusal::PoolOverHalf, 28, "pool over 50 percent"),
    (Refusal::SecondPurchase, 29, "second buy"),
    (Refusal::MustSellFirst, 30, "must sell first"),
    (Refusal::NotAPar, 31, "not a par"),
    (Refusal::ColourNotOpen, 32, "colour not open"),
    (Refusal::TileGone, 33, "tile gone"),
    (Refusal::NotAnUpgrade, 34, "not an upgrade"),
    (Refusal::NotReached, 35, "not reached"),
    (Refusal::BlockedHex, 36, "blocked hex"),
    (Refusal::NoSlot, 37, "no slot"),
    (Refusal::NoTokenLeft, 38, "no token left"),
    // A reply adds the clause's number.
    (
        Refusal::IllegalSheet(Clause::NodeTwice),
        39,
        "illegal sheet",
    ),
    (Refusal::CertificateRefused, 40, "certificate refused"),
    (Refusal::WrongStep, 42, "wrong step"),
    (Refusal::TrainLimit, 43, "train limit"),
    (Refusal::NotOnSale, 44, "not on sale"),
    (Refusal::PriceOutOfBounds, 45, "price out of bounds"),
    (Refusal::MustDiscardFirst, 46, "must discard first"),
    (Refusal::MustOwnTrain, 47, "must own a train"),
    (Refusal::SaleNotNeeded, 48, "sale not needed"),
    (
        Refusal::PresidencyWouldChange,
        49,
        "presidency would change",
    ),
    (Refusal::NotBankrupt, 50, "not bankrupt"),
    (Refusal::GameOver, 51, "game is over"),
    (Refusal::OutOfMemory, 70, "out of memory"),
];

static CLAUSES: [(Clause, u8); 7] = [
    (Clause::WrongWord, 1),
    (Clause::NoWalk, 2),
    (Clause::NodeTwice, 3),
    (Clause::TerminalInside, 4),
    (Clause::NoToken, 5),
    (Clause::TooManyCentres, 6),
    (Clause::SharedHexside, 7),
];

#[test]
fn refusals_have_numbers_and_texts(rt: HostRuntime) {
    let rt = &rt;
    for &(refusal, number, text) in &REFUSALS {
        let words = format!(in rt.alloc(); "{refusal}").expect(rt, "memory");
        check(rt, "text", words.as_str(), text);
        check(rt, text, refusal.number(), number);
    }
}

#[test]
fn clauses_have_numbers(rt: HostRuntime) {
    for &(clause, number) in &CLAUSES {
        check(&rt, "number", clause.number(), number);
    }
}
