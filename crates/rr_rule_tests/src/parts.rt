//! A game as plain values and as bytes, there and back.
use crate::fixtures::{A, B};
use crate::games::{STOCK_ROUND, kit, played, spelled};
use rr_books::Money;
use rr_game::{Due, Game, Kit, Parts, laws};
use std::alloc::Global;
use std::process::Abort;

// The calls below have no contracts, so that what a test does costs its proof little.

/// The plain values of the game of a and b after the first so many commands.
fn parts_after(rt: &impl Abort, alloc: Global, count: usize) -> Parts {
    let kit = kit(rt, alloc);
    played(rt, alloc, &kit, count).parts()
}

/// Its bytes.
fn bytes_after(rt: &impl Abort, alloc: Global, count: usize) -> Vec<u8> {
    spelled(rt, alloc, &parts_after(rt, alloc, count))
}

/// The game of these values, if one may have them.
fn game_from(rt: &impl Abort, alloc: Global, parts: &Parts) -> Option<Game> {
    Game::from_parts(alloc, parts).expect(rt, "memory")
}

/// Whether there is a game of these values: they tell it as what is made of them does.
fn makes_a_game(rt: &impl Abort, alloc: Global, parts: &Parts) -> bool {
    let made = game_from(rt, alloc, parts).is_some();
    assert!(rt; parts.are_sound() == made);
    made
}

/// Whether a game that has these bytes is made of its values.
fn has_bytes(rt: &impl Abort, alloc: Global, parts: &Parts, bytes: &[u8]) -> bool {
    match game_from(rt, alloc, parts) {
        Some(game) => spelled(rt, alloc, &game.parts()).as_slice() == bytes,
        None => false,
    }
}

/// Whether a game is made of these bytes that has them again.
fn are_of_a_game(rt: &impl Abort, alloc: Global, bytes: &[u8]) -> bool {
    match Parts::read(bytes) {
        Some(parts) => has_bytes(rt, alloc, &parts, bytes),
        None => false,
    }
}

fn are_read(bytes: &[u8]) -> bool {
    Parts::read(bytes).is_some()
}

/// Whether the bytes are read with one more behind them.
fn are_read_with_one_more(rt: &impl Abort, bytes: Vec<u8>) -> bool {
    let mut longer = bytes;
    longer.push(0).expect(rt, "memory");
    are_read(&longer)
}

/// How long the first front of the bytes is that is read.
fn first_front(bytes: &[u8]) -> Option<usize> {
    for length in 0..bytes.len() {
        if are_read(&bytes[..length]) {
            return Some(length);
        }
    }
    None
}

/// Whether the bytes of an opened game have their length, their front, and what stands behind the position.
fn are_of_an_opening(bytes: &[u8]) -> [bool; 3] {
    let counts = match bytes.get(896..) {
        Some(rest) => rest.starts_with(b"\x00\x00\x00\x01\x00\x00\x00\x00\x00\x00\x00\x01\x00\x00"),
        None => false,
    };
    [
        // 5 of the players, 883 of the position, 8 of the revenue, 4 of the count, 512 of the turns' ends
        bytes.len() == 1_412,
        bytes.starts_with(b"\x02\x01a\x01b"),
        // one command was played, and one at the end of turn 0: the lowest bit of the first eight bytes
        counts,
    ]
}

#[test]
fn an_opened_game_is_spelled(rt: HostRuntime) {
    let rt = &rt;
    let bytes = bytes_after(rt, rt.alloc(), 0);
    let is_right = [
        are_of_an_opening(&bytes) == [true; 3],
        first_front(&bytes).is_none(),
        are_of_a_game(rt, rt.alloc(), &bytes),
        !are_read_with_one_more(rt, bytes),
    ];
    assert!(rt; is_right == [true; 4]);
}

/// How many commands a game has played, how many turns have ended, what it waits for, and whether a sits first.
type Told = (u32, u64, Due, bool);

fn told(game: &Game, kit: &Kit) -> Told {
    let has_a = game.player(A) == b"a".as_slice();
    (game.played(), game.turns(), game.due(kit), has_a)
}

/// What is told of the game, made again of its values.
fn told_again(rt: &impl Abort, alloc: Global, kit: &Kit, game: &Game) -> Told {
    let made = laws::made_again(alloc, game).expect(rt, "memory");
    let again = made.expect(rt, "a game");
    told(&again, kit)
}

/// What is told of the game of a and b after the first so many commands, and of the one that is made of its values.
fn told_twice(rt: &impl Abort, alloc: Global, count: usize) -> [Told; 2] {
    let kit = kit(rt, alloc);
    let game = played(rt, alloc, &kit, count);
    [told(&game, &kit), told_again(rt, alloc, &kit, &game)]
}

#[test]
fn a_game_is_made_of_its_values(rt: HostRuntime) {
    let rt = &rt;
    laws::games_have_their_parts();
    // six purchases, of which the last one's turn ends by the par behind it, and a turn of the stock round
    let wanted = (10, 7, Due::Stock(B), true);
    assert!(rt; told_twice(rt, rt.alloc(), STOCK_ROUND) == [wanted; 2]);
    let bytes = bytes_after(rt, rt.alloc(), STOCK_ROUND);
    assert!(rt; are_of_a_game(rt, rt.alloc(), &bytes));
}

#[test]
fn values_that_no_game_has_are_refused(rt: HostRuntime) {
    let rt = &rt;
    let mut parts = parts_after(rt, rt.alloc(), 0);
    parts.standing.revenue = Money(-1);
    assert!(rt; !makes_a_game(rt, rt.alloc(), &parts));
}

#[test]
fn a_turn_that_ends_behind_the_last_command_is_refused(rt: HostRuntime) {
    let rt = &rt;
    let mut parts = parts_after(rt, rt.alloc(), STOCK_ROUND);
    // the last turn ended with the tenth command
    parts.played = 9;
    let of_nine = makes_a_game(rt, rt.alloc(), &parts);
    parts.played = 10;
    let of_ten = makes_a_game(rt, rt.alloc(), &parts);
    assert!(rt; [of_nine, of_ten] == [false, true]);
}
