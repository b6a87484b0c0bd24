//! The commands of the run, on three tables: an auction with its par, stock rounds with a sale, operating rounds with a
//! tile and runs; bids that rise; and passes. Among them tables are taken back, and turns forgotten.
use crate::stopping::worlds::{Step, World};
use std::process::Abort;

/// How many commands the run makes.
pub(crate) const COUNT: usize = 525;

/// A command, the place of its table in the order of opening, and the stamp with which it is committed.
#[derive(Drop)]
pub(crate) struct Line {
    pub(crate) table: usize,
    pub(crate) stamp: u64,
    pub(crate) record: String,
    pub(crate) step: Step,
}

/// The name of the table at a place, of two bytes.
pub(crate) fn name_at(table: usize) -> &'static str {
    match table {
        0 => "n1",
        1 => "s1",
        _ => "w1",
    }
}

// What the first table plays; + before what ends a turn. Six turns of an auction, and in the sixth the par of the B&O;
// six of a stock round, one of a corporation, which lays a tile and buys a train; four of a stock round with a sale;
// and one in which the train earns the 20 of A and the 30 of C. The last run is told to be best, since no train could
// earn more.
const PLAYED: &str = "open a b
+ buy a
+ buy b
+ buy a
+ buy b
+ buy a
buy b
+ par b B&O 100
par a PRR 100
+ done a
buy b PRR offer
+ done b
buy a PRR offer
+ done a
buy b PRR offer
+ done b
+ done a
+ done b
lay PRR B 9 2
hold PRR
train PRR 2 bank
+ end PRR
sell a PRR 1
+ done a
buy b PRR pool
+ done b
+ done a
+ done b
run PRR 2=1-2-3
pay PRR
+ end PRR
back 16
+ done b
run PRR 2=1-2-3
hold PRR
+ end PRR
forget 3
back 17
run PRR 2=1-2-3
pay PRR
+ end PRR
+ done a
+ done b
run PRR 2=1-2-3 best b
pay PRR
+ end PRR";

// As long as the first table has commands, each fourth one of all is its.
const PLAYED_UNTIL: usize = 184;

fn table_of(index: usize) -> usize {
    if index < PLAYED_UNTIL && index % 4 == 3 {
        return 0;
    }
    if index % 2 == 0 { 1 } else { 2 }
}

/// What a command says behind its table's name, with a number behind that or none, and what it makes of its table's
/// turns.
#[derive(Clone, Copy)]
pub(crate) struct Words {
    text: &'static str,
    number: Option<u64>,
    step: Step,
}

fn plain(text: &'static str, step: Step) -> Words {
    Words {
        text,
        number: None,
        step,
    }
}

pub(crate) fn back(turn: u64) -> Words {
    Words {
        text: "back ",
        number: Some(turn),
        step: Step::Back(turn),
    }
}

fn forget(turn: u64) -> Words {
    Words {
        text: "forget ",
        number: Some(turn),
        step: Step::Forget(turn),
    }
}

// The command of a row.
fn words_of(row: &'static str) -> Words {
    match row.strip_prefix("+ ") {
        Some(text) => plain(text, Step::EndTurn),
        None => plain(row, Step::Play),
    }
}

// The command of this number of the first table.
fn played(number: u64) -> Words {
    let row = PLAYED.lines().nth(number as usize).unwrap_or("");
    match row {
        "back 16" => back(16),
        "back 17" => back(17),
        "forget 3" => forget(3),
        _ => words_of(row),
    }
}

// The command of this number of the second table, where so many turns have ended: each bid is 5 over the one before it,
// and the first one 5 over the face of the M&H.
fn bidding(number: u64, turns: u64) -> Words {
    if number == 0 {
        return plain("open a b", Step::Play);
    }
    match number % 20 {
        10 => back(turns.saturating_sub(3)),
        15 => forget(turns.saturating_sub(5)),
        _ => bid(turns),
    }
}

fn bid(turns: u64) -> Words {
    let text = if turns % 2 == 0 {
        "bid a M&H "
    } else {
        "bid b M&H "
    };
    Words {
        text,
        number: Some(turns.saturating_mul(5).saturating_add(115)),
        step: Step::EndTurn,
    }
}

// So of the third table: behind the eighth pass in a row the SV is free, and nobody may pass.
fn passing(number: u64, turns: u64) -> Words {
    if number == 0 {
        return plain("open a b", Step::Play);
    }
    if turns == 6 {
        return back(number / 7 % 6);
    }
    let text = if turns % 2 == 0 { "pass a" } else { "pass b" };
    plain(text, Step::EndTurn)
}

fn words_in(table: usize, number: u64, turns: u64) -> Words {
    match table {
        0 => played(number),
        1 => bidding(number, turns),
        _ => passing(number, turns),
    }
}

fn plain_record(rt: &(impl Abort + AllocGlobal), name: &str, text: &str) -> String {
    format!(in rt.alloc(); "{name} {text}").expect(rt, "memory")
}

fn numbered_record(rt: &(impl Abort + AllocGlobal), name: &str, text: &str, number: u64) -> String {
    format!(in rt.alloc(); "{name} {text}{number}").expect(rt, "memory")
}

/// The record of a command of the table at a place.
pub(crate) fn record_of(rt: &(impl Abort + AllocGlobal), table: usize, words: Words) -> String {
    match words.number {
        Some(number) => numbered_record(rt, name_at(table), words.text, number),
        None => plain_record(rt, name_at(table), words.text),
    }
}

// The next command of the run in this world.
fn next_line(rt: &(impl Abort + AllocGlobal), world: &World) -> Line {
    let table = table_of(world.count);
    let side = world.sides.get(table).expect(rt, "a table");
    let words = words_in(table, side.stamp, side.turns());
    Line {
        table,
        stamp: side.stamp,
        record: record_of(rt, table, words),
        step: words.step,
    }
}

/// All commands of the run, and the one that comes behind them.
pub(crate) fn all_lines(rt: &(impl Abort + AllocGlobal)) -> Vec<Line> {
    let mut world = World::new();
    let mut lines = Vec::new(rt.alloc());
    for _ in 0..=COUNT {
        let line = next_line(rt, &world);
        world.take(line.table, line.step);
        lines.push(line).expect(rt, "memory");
    }
    lines
}

/// The first so many of these, or all if there are fewer.
pub(crate) fn first<T>(items: &[T], count: usize) -> &[T] {
    items.get(..count).unwrap_or(items)
}

/// The world of the first so many commands.
pub(crate) fn world_of(lines: &[Line], count: usize) -> World {
    let mut world = World::new();
    for line in first(lines, count) {
        world.take(line.table, line.step);
    }
    world
}
