//! A game of two from a small kit.
use crate::fixtures::{A, B};
use crate::games::{AUCTION, OPERATING_ROUND, STOCK_ROUND, kit, played, step};
use rr_books::{Cell, Corp, Kind, Money, Place, Private, Refusal};
use rr_code::{Account, Owner, TrainHolder};
use rr_game::{Due, Game, Kit, TurnStep};
use rr_words::Name;
use std::alloc::Global;
use std::process::Abort;

const PRR: Corp = Corp::Prr;

// The calls below have no contracts, so that what a test does costs its proof little.

fn player(rt: &impl Abort, word: &[u8]) -> Name {
    Name::player(word).expect(rt, "a player's name")
}

/// What a player has: a place, money, and how much of the PRR; and whether it has the SV, where its place is this.
type Part = (
    Result<Place, Refusal>,
    Result<Money, Refusal>,
    Result<u8, Refusal>,
    bool,
);

fn part_of(game: &Game, kit: &Kit, player: Name, place: Place) -> Part {
    (
        game.place(&Owner::Player(player)),
        game.cash(&Account::Player(player), kit),
        game.holds(&player, PRR),
        game.owns(place, Private::Sv),
    )
}

/// Whether a has its name at the table, and its part.
fn has_its_part(rt: &impl Abort, game: &Game, kit: &Kit) -> bool {
    let seat = Place::Seat(A);
    let found = part_of(game, kit, player(rt, b"a"), seat);
    game.player(A) == b"a".as_slice() && found == (Ok(seat), Ok(Money(750)), Ok(30), true)
}

/// Whether the PRR stands at 100, behind the B&O.
fn has_its_order(game: &Game, kit: &Kit) -> bool {
    let cell = Cell { row: 0, column: 6 };
    let order = [Corp::Bo, PRR];
    let priced = game.price(PRR, kit) == Some((100, cell));
    priced && game.order(kit).as_slice() == order.as_slice()
}

/// How many 2s the PRR has, and the pool.
fn twos(game: &Game) -> [u8; 2] {
    [
        game.trains(TrainHolder::Corp(PRR), Kind::Two),
        game.trains(TrainHolder::Pool, Kind::Two),
    ]
}

/// Whether the PRR has its money, no train, and no debt, in the first phase.
fn has_only_money(game: &Game, kit: &Kit) -> bool {
    let told = (
        game.cash(&Account::Corp(PRR), kit),
        game.phase(),
        game.iou(kit),
        game.revenue(),
    );
    told == (Ok(Money(1000)), Kind::Two, 0, Money(0)) && twos(game) == [0, 0]
}

/// Why a game doesn't take a command, if it doesn't.
fn refusal(
    rt: &impl Abort,
    alloc: Global,
    kit: &Kit,
    game: &Game,
    words: &[u8],
) -> Option<Refusal> {
    step(rt, alloc, kit, game, words).err()
}

/// What holds of a game.
#[derive(Clone, Copy)]
enum Fact {
    /// It waits for this, and asks this price for a private, if for one.
    Waits(Due, Option<(Private, Money)>),
    /// A player may hold so many certificates.
    HasLimit(u8),
    /// So many commands were played.
    HasPlayed(u32),
    /// A command of these words is refused for this.
    Refuses(&'static [u8], Refusal),
    HasPartOfA,
    HasOrder,
    HasOnlyMoney,
}

use Fact::{HasLimit, HasOnlyMoney, HasOrder, HasPartOfA, HasPlayed, Refuses, Waits};

fn holds(rt: &impl Abort, alloc: Global, kit: &Kit, game: &Game, fact: Fact) -> bool {
    match fact {
        Waits(due, asked) => (game.due(kit), game.asked(kit)) == (due, asked),
        HasLimit(limit) => game.limit() == limit,
        HasPlayed(count) => game.played() == count,
        Refuses(words, fault) => refusal(rt, alloc, kit, game, words) == Some(fault),
        HasPartOfA => has_its_part(rt, game, kit),
        HasOrder => has_its_order(game, kit),
        HasOnlyMoney => has_only_money(game, kit),
    }
}

/// Whether all of this holds of the game of a and b after the first so many commands.
fn hold_after(rt: &impl Abort, alloc: Global, count: usize, facts: &[Fact]) -> bool {
    let kit = kit(rt, alloc);
    let game = played(rt, alloc, &kit, count);
    let mut right = true;
    for fact in facts {
        right = right && holds(rt, alloc, &kit, &game, *fact);
    }
    right
}

static OPENED: [Fact; 2] = [
    Waits(Due::Turn(A), Some((Private::Sv, Money(20)))),
    HasLimit(28),
];

#[test]
fn a_game_begins_with_the_auction(rt: HostRuntime) {
    assert!(rt; hold_after(&rt, rt.alloc(), 0, &OPENED));
}

static BEHIND_THE_AUCTION: [Fact; 1] = [Waits(Due::Stock(A), None)];

static IN_THE_STOCK_ROUND: [Fact; 4] = [
    HasPlayed(10),
    Waits(Due::Stock(B), None),
    HasPartOfA,
    HasOrder,
];

#[test]
fn an_auction_and_the_stock_round_behind_it(rt: HostRuntime) {
    assert!(rt; hold_after(&rt, rt.alloc(), AUCTION, &BEHIND_THE_AUCTION));
    assert!(rt; hold_after(&rt, rt.alloc(), STOCK_ROUND, &IN_THE_STOCK_ROUND));
}

static ORDERS: [Fact; 2] = [
    Refuses(b"run PRR 2=1-2 best s1 b f", Refusal::WrongStep),
    Refuses(b"train PRR 2 NYC 40 nobody b", Refusal::NoSuchName),
];

#[test]
fn the_auction_takes_no_order(rt: HostRuntime) {
    assert!(rt; hold_after(&rt, rt.alloc(), 0, &ORDERS));
}

static IN_AN_OPERATING_ROUND: [Fact; 2] = [
    Waits(Due::Operating(PRR, TurnStep::Lay), None),
    HasOnlyMoney,
];

#[test]
fn a_corporation_is_due_in_an_operating_round(rt: HostRuntime) {
    assert!(rt; hold_after(&rt, rt.alloc(), OPERATING_ROUND, &IN_AN_OPERATING_ROUND));
}

#[test]
fn laws_are_called() {
    rr_laws::sound();
    rr_laws::best_runs_were_best();
    rr_laws::dividends_were_right();
    rr_laws::never_pays_a_wrong_dividend();
    rr_laws::revenues_are_of_the_book();
    rr_laws::worked_revenue();
    rr_laws::kits_name_corporations();
    rr_laws::plays_go_on();
    rr_laws::each_command_has_a_verdict();
    rr_laws::each_request_has_a_verdict();
    rr_laws::phases_are_greatest_sold();
    rr_laws::games_are_short();
    rr_game::laws::commands_have_one_verdict();
}
