//! Games of a and b from a small kit, and their commands. The calls have almost no contracts, so that what a test does
//! costs its proof little.
ghost use Rattle.std.specs.Prelude.{◌≡◌, ◌≤◌, true};
ghost use Rattle.rr_code.specs.Command.{IsCommand};
ghost use Rattle.rr_game.specs.Names.{amount_in, price_in};

use crate::fixtures::ROSTER;
use rr_books::Refusal;
use rr_code::{Command, Players};
use rr_desk::Entries;
use rr_game::{Game, Kit, Parts};
use rr_orders::Order;
use rr_words::spelling::Spell;
use std::alloc::Global;
use std::process::Abort;

const CHART: &[u8] = b"60y 67 71 76 82 90 100p\n";

const BOARD: &[u8] = b"hex A 0,0 white\n";

/// The kit of the small chart and board.
pub(crate) fn kit(rt: &impl Abort, alloc: Global) -> Kit {
    Kit::read(alloc, CHART, ROSTER.as_bytes(), b"", BOARD).expect(rt, "a kit")
}

pub(crate) fn command<'a>(rt: &impl Abort, words: &'a [u8]) -> Command<'a>
    ensures { IsCommand result }
{
    Command::read(words).expect(rt, "a command")
}

/// Those who open a table by these words.
pub(crate) fn players(rt: &impl Abort, words: &[u8]) -> Players {
    match command(rt, words) {
        Command::Open { players } => players,
        _ => rt.abort(),
    }
}

fn is_small(command: &Command) -> bool
    ensures { result ≡ true → amount_in command.now ≤ 10000000000 }
{
    match command {
        Command::Bid { amount, .. } => *amount <= 10_000_000_000,
        Command::Order(order) => is_small_order(order),
        _ => true,
    }
}

fn is_small_order(order: &Order) -> bool
    ensures { result ≡ true → price_in order.now ≤ 10000000000 }
{
    match order {
        Order::BuyTrainFrom { price, .. } => *price <= 10_000_000_000,
        Order::TakePrivate { price, .. } => *price <= 10_000_000_000,
        _ => true,
    }
}

/// What a command makes of a game.
pub(crate) fn step(
    rt: &impl Abort,
    alloc: Global,
    kit: &Kit,
    game: &Game,
    words: &[u8],
) -> Result<Game, Refusal> {
    let command = command(rt, words);
    assert!(rt; game.played() < 4096);
    assert!(rt; is_small(&command));
    game.step(alloc, &command, kit)
}

/// The entries that a command adds to a game's book.
pub(crate) fn entries(
    rt: &impl Abort,
    alloc: Global,
    kit: &Kit,
    game: &Game,
    words: &[u8],
) -> Result<Entries, Refusal> {
    let command = command(rt, words);
    assert!(rt; game.played() < 4096);
    assert!(rt; is_small(&command));
    game.entries(alloc, &command, kit)
}

/// Two players buy the privates, and b sets the B&O's par; a floats the PRR, which is due as the first operating round
/// begins.
static COMMANDS: [&[u8]; 20] = [
    b"buy a",
    b"buy b",
    b"buy a",
    b"buy b",
    b"buy a",
    b"buy b",
    b"par b B&O 100",
    b"par a PRR 100",
    b"done a",
    b"done b",
    b"buy a PRR offer",
    b"done a",
    b"done b",
    b"buy a PRR offer",
    b"done a",
    b"done b",
    b"buy a PRR offer",
    b"done a",
    b"done b",
    b"done a",
];

/// How many of them end the auction.
pub(crate) const AUCTION: usize = 7;

/// How many lead to the turn of b in the first stock round.
pub(crate) const STOCK_ROUND: usize = 9;

/// How many lead to the first operating round.
pub(crate) const OPERATING_ROUND: usize = 20;

/// The game of a and b after the first so many commands.
pub(crate) fn played(rt: &impl Abort, alloc: Global, kit: &Kit, count: usize) -> Game {
    let mut game = Game::open(alloc, players(rt, b"open a b"), kit).expect(rt, "memory");
    for words in COMMANDS.iter().take(count) {
        game = step(rt, alloc, kit, &game, *words).expect(rt, "a lawful command");
    }
    game
}

/// The bytes of a game's values.
pub(crate) fn spelled(rt: &impl Abort, alloc: Global, parts: &Parts) -> Vec<u8> {
    let mut bytes = Vec::new(alloc);
    parts.write(&mut bytes).expect(rt, "memory");
    bytes
}
