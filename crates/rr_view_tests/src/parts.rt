//! The views as plain values and as bytes, there and back.
use crate::layout::hex;
use crate::market::follow;
use crate::opening::{check, position};
use rr_books::{Cell, Corp, Entry, Marker, Seat};
use rr_desk::Position;
use rr_desk::layout::{Lay, Layout, Station};
use rr_desk::position::PositionParts;
use rr_market::operations::{Operations, OperationsParts, Stage, TurnStep};
use rr_market::{Market, MarketParts, Token};
use rr_rounds::bids::{Bidding, BiddingParts};
use rr_rounds::{Purchases, Rounds, RoundsParts};
use rr_words::spelling::{Cursor, Spell};
use std::process::Abort;

/// The bytes of a value.
fn spelled<T: Spell>(rt: &(impl Abort + AllocGlobal), value: &T) -> Vec<u8> {
    let mut bytes = Vec::new(rt.alloc());
    value.write(&mut bytes).expect(rt, "memory");
    bytes
}

/// The value of which these are all the bytes.
fn read<T: Spell + Copy>(bytes: &[u8]) -> Option<T> {
    let mut cursor = Cursor::of(bytes);
    let value = T::read(&mut cursor)?;
    if cursor.is_empty() { Some(value) } else { None }
}

/// Whether a value that has these bytes is read from them.
fn is_read_again<T: Spell + Copy>(rt: &(impl Abort + AllocGlobal), bytes: &[u8]) -> bool {
    match read::<T>(bytes) {
        Some(again) => spelled(rt, &again).as_slice() == bytes,
        None => false,
    }
}

/// Whether a value is read from all bytes but the last, if there is one.
fn is_read_short<T: Spell + Copy>(bytes: &[u8]) -> Option<bool> {
    let front = bytes.get(..bytes.len().checked_sub(1)?)?;
    Some(read::<T>(front).is_some())
}

/// Whether a value is read from the bytes and one more.
fn is_read_long<T: Spell + Copy>(rt: &impl Abort, bytes: Vec<u8>) -> bool {
    let mut longer = bytes;
    longer.push(0).expect(rt, "memory");
    read::<T>(&longer).is_some()
}

/// Stops where a value isn't read from its bytes again, or is from all but the last of them, or with one more.
fn check_bytes<T: Spell + Copy>(rt: &(impl Abort + AllocGlobal), value: &T, length: usize) {
    let bytes = spelled(rt, value);
    check(rt, "length", bytes.len(), length);
    check(rt, "again", is_read_again::<T>(rt, &bytes), true);
    check(rt, "one less", is_read_short::<T>(&bytes), Some(false));
    check(rt, "one more", is_read_long::<T>(rt, bytes), false);
}

fn has_part(bytes: &[u8], before: usize, part: &[u8]) -> bool {
    match bytes.get(before..) {
        Some(rest) => rest.starts_with(part),
        None => false,
    }
}

/// Stops where other bytes of a value stand behind so many.
fn check_part<T: Spell>(rt: &(impl Abort + AllocGlobal), value: &T, before: usize, part: &[u8]) {
    let bytes = spelled(rt, value);
    check(
        rt,
        "part",
        (before, has_part(&bytes, before, part)),
        (before, true),
    );
}

/// The seat in turn in the rounds of these values.
fn turn_of(parts: RoundsParts) -> Option<Seat> {
    Some(Rounds::from_parts(parts)?.turn())
}

fn are_rounds(parts: RoundsParts) -> bool {
    Rounds::from_parts(parts).is_some()
}

#[test]
fn rounds_are_made_of_their_values(rt: HostRuntime) {
    let rt = &rt;
    let mut parts = Rounds::open(3).parts();
    check(rt, "players", parts.players, 3);
    check(rt, "purchases", parts.purchases, Purchases::Nothing);
    parts.turn = Seat(2);
    parts.turns = 258;
    parts.passes = 258;
    check(rt, "turn", turn_of(parts), Some(Seat(2)));
    parts.passes = 259;
    check(rt, "passes", are_rounds(parts), false);
    parts.passes = 0;
    parts.priority = Seat(3);
    check(rt, "seat", are_rounds(parts), false);
    parts.priority = Seat(0);
    parts.turn = Seat(3);
    check(rt, "turn", are_rounds(parts), false);
    parts.players = 256;
    check(rt, "256", are_rounds(parts), true);
    parts.players = 257;
    check(rt, "257", are_rounds(parts), false);
}

#[test]
fn rounds_are_spelled(rt: HostRuntime) {
    let rt = &rt;
    let mut parts = Rounds::open(3).parts();
    parts.turn = Seat(2);
    parts.turns = 258;
    parts.purchases = Purchases::PoolOf(Corp::Bm);
    check_bytes::<RoundsParts>(rt, &parts, 88);
    // 2 of the players, 8 of the rounds, 1; the seat; 1; 2 of the purchases
    check_part(rt, &parts, 11, b"\x02");
    // the pool, and the B&M
    check_part(rt, &parts, 13, b"\x01\x07");
    // the turns: 258 is 0x102
    check_part(rt, &parts, 78, b"\x01\x02");
}

#[test]
fn each_value_of_rounds_has_its_place(rt: HostRuntime) {
    let rt = &rt;
    let mut parts = Rounds::open(3).parts();
    parts.begun = 5;
    parts.under_way = true;
    parts.turn = Seat(2);
    parts.passes = 6;
    parts.priority = Seat(1);
    parts.sales[1][2] = true;
    parts.turns = 7;
    parts.floated[3] = true;
    let front = b"\x00\x03\x00\x00\x00\x00\x00\x00\x00\x05\x01\x02\x00\x00";
    check_part(rt, &parts, 0, front);
    check_part(rt, &parts, 14, b"\x00\x00\x00\x00\x00\x00\x00\x06\x01");
    // eight of the first seat, and the third of the second one's
    check_part(rt, &parts, 31, b"\x00\x00\x01\x00");
    let end = b"\x00\x00\x00\x00\x00\x00\x00\x07\x00\x00\x00\x01\x00\x00\x00\x00";
    check_part(rt, &parts, 71, end);
}

/// How often the price fell in the auction of these values.
fn falls_of(parts: BiddingParts) -> Option<u32> {
    Some(Bidding::from_parts(parts)?.falls())
}

/// Who owes a par in the auction of these values.
fn par_due_of(parts: BiddingParts) -> Option<Seat> {
    Bidding::from_parts(parts)?.par_due()
}

fn is_auction(parts: BiddingParts) -> bool {
    Bidding::from_parts(parts).is_some()
}

#[test]
fn an_auction_is_made_of_its_values(rt: HostRuntime) {
    let rt = &rt;
    let mut parts = Bidding::open().parts();
    parts.commands = 3;
    parts.falls = 3;
    parts.par_due = Some(Seat(1));
    check(rt, "falls", falls_of(parts), Some(3));
    check(rt, "par", par_due_of(parts), Some(Seat(1)));
    // one more than without a par
    check_bytes::<BiddingParts>(rt, &parts, 304);
    // the seat
    check_part(rt, &parts, 298, b"\x01");
    parts.bids[5][0] = 10_000_000_000;
    check(rt, "bid", is_auction(parts), true);
    parts.bids[5][0] = 10_000_000_001;
    check(rt, "bid", is_auction(parts), false);
    parts.bids[5][0] = 0;
    parts.falls = 4;
    check(rt, "fall", is_auction(parts), false);
    parts.falls = 3;
    parts.passes = 4;
    check(rt, "pass", is_auction(parts), false);
}

#[test]
fn each_value_of_an_auction_has_its_place(rt: HostRuntime) {
    let rt = &rt;
    let mut parts = Bidding::open().parts();
    parts.turn = Seat(1);
    parts.passes = 2;
    parts.falls = 3;
    parts.bids[0][2] = 4;
    parts.par_due = Some(Seat(5));
    parts.priority = Seat(0);
    parts.commands = 6;
    check_part(rt, &parts, 0, b"\x01\x00\x00\x00\x02\x00\x00\x00\x03");
    // of the first private the third seat's
    check_part(rt, &parts, 25, b"\x00\x00\x00\x00\x00\x00\x00\x04\x00");
    check_part(rt, &parts, 297, b"\x01\x05\x00\x00\x00\x00\x06");
}

/// The values of a market where the NYC's token is on a cell.
fn marked(cell: Cell) -> MarketParts {
    let mut market = Market::new();
    let corp = Corp::Nyc;
    follow(&mut market, Entry::Mark { corp, cell });
    market.parts()
}

/// Where the NYC's token is on the market of these values.
fn cell_of_nyc(parts: MarketParts) -> Option<Cell> {
    Market::from_parts(parts)?.cell(Corp::Nyc)
}

fn is_market(parts: MarketParts) -> bool {
    Market::from_parts(parts).is_some()
}

#[test]
fn a_market_is_made_of_its_values(rt: HostRuntime) {
    let rt = &rt;
    let cell = Cell { row: 2, column: 6 };
    let mut parts = marked(cell);
    check(rt, "last", parts.ranks, [0, 7, 1, 2, 3, 4, 5, 6]);
    check(rt, "cell", cell_of_nyc(parts), Some(cell));
    let token = Token {
        first: cell,
        cell: Cell { row: 1, column: 6 },
    };
    parts.tokens[1] = Some(token);
    check_bytes::<MarketParts>(rt, &parts, 20);
    // a row, and a rank
    check_part(rt, &parts, 4, b"\x01");
    check_part(rt, &parts, 13, b"\x07");
    parts.ranks[0] = 7;
    check(rt, "twice", is_market(parts), false);
    parts.ranks[0] = 8;
    check(rt, "8", is_market(parts), false);
}

/// The step of the turn and the length of the set, in the rounds of these values.
fn step_and_length_of(parts: OperationsParts) -> Option<(TurnStep, u8)> {
    let operations = Operations::from_parts(parts)?;
    Some((operations.step(), operations.set_length()))
}

fn are_operations(parts: OperationsParts) -> bool {
    Operations::from_parts(parts).is_some()
}

#[test]
fn operating_rounds_are_made_of_their_values(rt: HostRuntime) {
    let rt = &rt;
    let mut parts = Operations::open(3).parts();
    check(rt, "lowest", parts.lowest, -2400);
    parts.stage = Stage::Operating;
    parts.step = TurnStep::Pay;
    parts.set_length = 2;
    let found = step_and_length_of(parts);
    check(rt, "step and length", found, Some((TurnStep::Pay, 2)));
    check_bytes::<OperationsParts>(rt, &parts, 140);
    // the stage, and the step
    check_part(rt, &parts, 0, b"\x02");
    check_part(rt, &parts, 26, b"\x03");
    // the lowest balance in two's complement: 2,400 is 0x960
    check_part(rt, &parts, 34, b"\xf6\xa0");
    parts.market.ranks[0] = 1;
    check(rt, "ranks", are_operations(parts), false);
    parts.market.ranks[0] = 0;
    parts.stock.turn = Seat(3);
    check(rt, "seat", are_operations(parts), false);
}

#[test]
fn each_value_of_operating_rounds_has_its_place(rt: HostRuntime) {
    let rt = &rt;
    let mut parts = Operations::open(3).parts();
    parts.stage = Stage::Stock;
    parts.sets = 2;
    parts.round = 3;
    parts.set_length = 4;
    parts.turns[1] = true;
    parts.step = TurnStep::Station;
    parts.has_run = true;
    parts.stock.players = 3;
    let front = b"\x01\x00\x00\x00\x00\x00\x00\x00\x02\x00\x00\x00\x00\x00\x00\x00\x03\x04";
    check_part(rt, &parts, 0, front);
    check_part(rt, &parts, 18, b"\x00\x01\x00\x00\x00\x00\x00\x00\x01\x01");
    // behind the lowest balance: no bankrupt, no token, the first rank, and the seats of the rounds
    check_part(
        rt,
        &parts,
        36,
        b"\x00\x00\x00\x00\x00\x00\x00\x00\x00\x00\x01",
    );
    check_part(rt, &parts, 53, b"\x00\x03");
    parts.stage = Stage::Auction;
    parts.step = TurnStep::Run;
    parts.bankrupt = true;
    // the stage, the step, and the bankruptcy
    check_part(rt, &parts, 0, b"\x00");
    check_part(rt, &parts, 26, b"\x02");
    check_part(rt, &parts, 36, b"\x01");
}

#[test]
fn a_board_is_spelled(rt: HostRuntime) {
    let rt = &rt;
    let mut layout = Layout::new();
    check_bytes(rt, &layout, 4);
    layout.lay(Lay {
        hex: hex(rt),
        tile: 57,
        turn: 2,
    });
    layout.station(Station {
        corp: Corp::Prr,
        hex: hex(rt),
        centre: 1,
    });
    check_bytes(rt, &layout, 24);
    // one tile, its hex, and its number
    check_part(rt, &layout, 1, b"\x01");
    check_part(rt, &layout, 3, b"E");
    check_part(rt, &layout, 7, b"\x39");
    layout.lay(Lay {
        hex: hex(rt),
        tile: 14,
        turn: 5,
    });
    // the newer tile behind the older one, and then the token
    check_part(
        rt,
        &layout,
        0,
        b"\x00\x02\x03E11\x00\x39\x02\x03E11\x00\x0e\x05",
    );
    let token = b"\x00\x01\x00\x03E11\x00\x00\x00\x00\x00\x00\x00\x01";
    check_part(rt, &layout, 16, token);
}

/// Whether a position has these values: they tell it as what is made of them does.
fn is_position(rt: &(impl Abort + AllocGlobal), parts: PositionParts) -> bool {
    let sound = parts.are_sound();
    let made = Position::from_parts(parts).is_some();
    check(rt, "sound", sound, made);
    made
}

#[test]
fn a_position_is_made_of_its_values(rt: HostRuntime) {
    let rt = &rt;
    let mut table = position(rt, 3);
    crate::position::follow(rt, &mut table, Entry::Step(Marker::Stock));
    let mut parts = table.parts();
    check(rt, "entries", parts.entries, 4);
    // 329 of the books, 303 of the auction, 16, 87 and 140 of the others, 4 of the board, and 4
    check_bytes::<PositionParts>(rt, &parts, 883);
    let again = Position::from_parts(parts).expect(rt, "a position");
    check(rt, "round", again.rounds().is_under_way(), true);
    parts.entries = 2;
    check(rt, "few", is_position(rt, parts), false);
    parts.entries = 400_000_001;
    check(rt, "many", is_position(rt, parts), false);
}

/// Whether a position of four entries may count so many payments, commands of the auction, turns and begun rounds of the
/// stock rounds, sets of operating rounds, and rounds of a set.
fn may_count(rt: &(impl Abort + AllocGlobal), counts: [u32; 6]) -> bool {
    let mut parts = position(rt, 3).parts();
    parts.entries = 4;
    parts.books.payments = counts[0];
    parts.bidding.commands = counts[1];
    parts.rounds.turns = u64::from(counts[2]);
    parts.rounds.begun = u64::from(counts[3]);
    parts.operations.sets = u64::from(counts[4]);
    parts.operations.round = u64::from(counts[5]);
    is_position(rt, parts)
}

#[test]
fn no_view_counts_more_than_there_are_entries(rt: HostRuntime) {
    let rt = &rt;
    check(rt, "as many", may_count(rt, [4, 4, 4, 4, 4, 4]), true);
    check(rt, "payments", may_count(rt, [5, 4, 4, 4, 4, 4]), false);
    check(rt, "commands", may_count(rt, [4, 5, 4, 4, 4, 4]), false);
    check(rt, "turns", may_count(rt, [4, 4, 5, 4, 4, 4]), false);
    check(rt, "rounds", may_count(rt, [4, 4, 4, 5, 4, 4]), false);
    check(rt, "sets", may_count(rt, [4, 4, 4, 4, 5, 4]), false);
    check(rt, "round", may_count(rt, [4, 4, 4, 4, 4, 5]), false);
}
