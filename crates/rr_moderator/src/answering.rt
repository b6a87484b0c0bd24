// The answers to queries, and the reply to an accepted request.
ghost use Rattle.rr_moderator.specs.declared.reply.TheConstants.{REPLY_ROOM};
ghost use Rattle.std.specs.Prelude.{◌≡◌, ◌≢◌, true, false, IfErr, ◌+◌, ◌*◌, ◌≤◌, ◌++◌, List, ℕ, [], ◌∷◌, None, MatchOption, MatchResult, OnOk, codes, decimal, filter, length, map, replicate, slice_get, take};
ghost use Rattle.std.specs.Option.{option_copied};
ghost use Rattle.rr_books.specs.Shares.{is_at};
ghost use Rattle.rr_roster.specs.Company.{corp_name, kind_name, private_name};
ghost use Rattle.rr_books.specs.State.{holder_in};
ghost use Rattle.rr_moderator.specs.Answer.{answer_of, asked_words, owned, price_words, runs_trains};
ghost use Rattle.rr_game.specs.History.Tables.{IsPlayed, kept_in};
ghost use Rattle.rr_store.specs.Holding.{GamesArePlayed, held_of};
ghost use Rattle.rr_store.specs.World.{names};
ghost use Rattle.rr_reading.specs.declared.dir.directory.TheConstants.{MOST_TABLES};
ghost use Rattle.rr_books.specs.Book.{Book, train_holder};
ghost use Rattle.rr_desk.specs.Position.Position.{IsPositionOf};
ghost use Rattle.rr_orders.specs.Texts.{added};
ghost use Rattle.rr_game.specs.Names.{trains_place};
ghost use Rattle.rr_moderator.specs.Queries.{MayRefuseBy, MeetsQuery, Writes, asked_answer, book_answer, cash_answer, due_answer, due_words, holds_answer, iou_answer, limit_answer, order_answer, phase_answer, price_answer, privates_answer, query_answer, reply_of, stamp_answer, step_word, trains_answer, trains_words, turns_answer, allocates, worth_answer};
ghost use Rattle.rr_moderator.specs.Durability.{MayAnswer, SaysNeither, tells_answer};
ghost use Rattle.rr_moderator.specs.Fault.{of_history, refusal_of};
ghost use Rattle.rr_moderator.specs.Serving.{outcome_of};
ghost use Rattle.rr_entries.specs.Words.{book_words, joined, player_word, spaced};
ghost use Rattle.rr_game.specs.History.TurnEntries.{book_verdict, turn_entries};

use crate::fault::Fault;
use crate::reply::Reply;
use rr_books::{Cell, Cert, Money, Place, Seat};
use rr_code::{Account, Command, Owner, Query, Request, TrainHolder};
use rr_desk::Entries;
use rr_disk::Disk;
use rr_entries::text_of;
use rr_game::{Due, Game, history};
use rr_kit::Kit;
use rr_market::operations::TurnStep;
use rr_orders::Order;
use rr_roster::{Corp, Kind, Private};
use rr_store::{Store, Table};
use rr_words::Name;
use std::alloc::{AllocError, Global};

impl Reply {
    /// The reply to an accepted request, as far as it tells the table and its new stamp.
    pub(crate) fn accept(&mut self, table: &Name, stamp: u64)
        ensures text { self.new ≡ codes "ok " ++ table.now ++ codes " " ++ decimal stamp }
        ensures bounded { length self.new ≤ 60 }
    {
        self.clear();
        self.text(b"ok ");
        self.text(table.as_bytes());
        self.text(b" ");
        self.number(stamp);
    }

    /// The words of a sheet, behind a space; nothing for a sheet without words.
    pub(crate) fn sheet(&mut self, words: &[u8])
        requires { length self.old + length words.now + 1 ≤ REPLY_ROOM }
        ensures text { self.new ≡ self.old ++ added words.now }
        ensures bounded { length self.new ≤ length self.old + length words.now + 1 }
    {
        if words.is_empty() {
            return;
        }
        self.word(words);
    }

    /// The name of a corporation, behind a space.
    fn corp(&mut self, corp: Corp)
        requires { length self.old ≤ 4000 }
        ensures text { self.new ≡ self.old ++ (codes " " ++ corp_name corp) }
        ensures bounded { length self.new ≤ length self.old + 5 }
    {
        self.word(corp.name().as_bytes());
    }

    /// The name of a private, behind a space.
    fn private(&mut self, private: Private)
        requires { length self.old ≤ 4000 }
        ensures text { self.new ≡ self.old ++ (codes " " ++ private_name private) }
        ensures bounded { length self.new ≤ length self.old + 5 }
    {
        self.word(private.name().as_bytes());
    }
}

/// Whether the request runs a corporation's trains.
pub(crate) fn runs_trains(request: &Request<Command>) -> bool
    ensures { result ≡ runs_trains request.now }
{
    matches!(
        request,
        Request::Play(Command::Order(Order::Run { .. } | Order::RunBest { .. }))
    )
}

/// Writes the answer to a query. Only `book` allocates memory.
///
/// # Errors
/// `NoSuchTable`; then `NoSuchName` if the table has no player of that name, or `TurnNotKept` if the turn's entries can't
/// be read; then, only for `book`, `OutOfMemory`.
pub(crate) fn answer<D: Disk + Drop>(
    alloc: Global,
    store: &Store<D>,
    query: &Query,
    reply: &mut Reply,
) -> Result<(), Fault>
    requires { (held_of store.now).broken ≡ false }
    ensures meets { GamesArePlayed store.now →
        MeetsQuery (held_of store.now).kit (held_of store.now).tables query.now (outcome_of result reply.new) }
    ensures may { MayAnswer (outcome_of result reply.new) }
{
    reply.clear();
    match book_asked(query) {
        Some((table, turn)) => write_book(alloc, store, table, turn, reply),
        None => {
            write_answer(store, query, reply)?;
            reply.text(b"\n");
            Ok(())
        }
    }
}

/// The table and the turn, if the query asks for a turn's entries.
fn book_asked(query: &Query) -> Option<(&Name, u64)>
    ensures { MatchOption result (allocates query.now ≡ false) (λ asked. query.now ≡ Query.Book asked.0.now asked.1) }
{
    match query {
        Query::Book { table, turn } => Some((table, *turn)),
        _ => None,
    }
}

/// Writes the answer to `book`, with the line feed.
fn write_book<D: Disk + Drop>(
    alloc: Global,
    store: &Store<D>,
    table: &Name,
    turn: u64,
    reply: &mut Reply,
) -> Result<(), Fault>
    requires whole { (held_of store.now).broken ≡ false }
    requires empty { reply.old ≡ [] }
    ensures meets { GamesArePlayed store.now →
        MeetsQuery (held_of store.now).kit (held_of store.now).tables (Query.Book table.now turn) (outcome_of result reply.new) }
    ensures may { MayAnswer (outcome_of result reply.new) }
{
    let table = store.table(table)?;
    let entries = entries_of(alloc, table, turn, store.kit())?;
    write_turn(alloc, table.game(), entries.as_slice(), reply)?;
    Ok(())
}

/// The entries that the commands of a table's turn added.
fn entries_of(alloc: Global, table: &Table, turn: u64, kit: &Kit) -> Result<Vec<Entries>, Fault>
    ensures calm { IfErr result (λ fault. SaysNeither (refusal_of fault)) }
    ensures entries { IsPlayed kit.now table.now → MatchResult result
        (λ all. (book_verdict kit.now (kept_in table.now) turn ≡ None)
        × (joined all.items ≡ turn_entries kit.now (kept_in table.now).commands turn))
        (λ fault. MayRefuseBy (book_answer kit.now turn (kept_in table.now)) fault) }
{
    match table.book(alloc, turn, kit) {
        Ok(entries) => Ok(entries),
        Err(fault) => Err(of_history(fault)),
    }
}

/// Why the entries of a turn can't be read.
fn of_history(fault: history::Fault) -> Fault
    ensures { result ≡ of_history fault }
{
    match fault {
        history::Fault::TurnNotKept => Fault::TurnNotKept,
        _ => Fault::OutOfMemory,
    }
}

/// Writes the entries of a turn's commands, with the line feed.
fn write_turn(
    alloc: Global,
    game: &Game,
    all: &[Entries],
    reply: &mut Reply,
) -> Result<(), AllocError>
    requires { reply.old ≡ [] }
    ensures { OnOk result (reply.new ≡ answer_of (book_words game.now.players (joined all.now)) ++ codes "\n") }
{
    let text = text_of(alloc, game.players(), all)?;
    reply.text(b"=");
    reply.push(text.as_slice())?;
    write_nothing(reply);
    reply.push(b"\n")
}

/// Writes the answer to a query, but for the line feed.
fn write_answer<D: Disk + Drop>(
    store: &Store<D>,
    query: &Query,
    reply: &mut Reply,
) -> Result<(), Fault>
    requires whole { (held_of store.now).broken ≡ false }
    requires empty { reply.old ≡ [] }
    requires bounded { allocates query.now ≡ false }
    ensures answer { GamesArePlayed store.now → Writes (query_answer (held_of store.now).kit (held_of store.now).tables query.now) result reply.new }
    ensures may { MayAnswer (outcome_of result reply.new) }
    ensures bounded { length reply.new ≤ 1100 }
{
    match query {
        Query::Tables => {
            write_names(store, reply);
            Ok(())
        }
        Query::Stamp { table } => {
            write_stamp(store.table(table)?, reply);
            Ok(())
        }
        Query::Turns { table } => {
            write_turns(store.table(table)?, reply);
            Ok(())
        }
        Query::Due { table } => {
            write_table_due(store.table(table)?, store.kit(), reply);
            Ok(())
        }
        Query::Cash { table, of } => write_cash(store.table(table)?, of, store.kit(), reply),
        Query::Limit { table } => {
            write_limit(store.table(table)?, reply);
            Ok(())
        }
        Query::Asked { table } => {
            write_cheapest(store.table(table)?, store.kit(), reply);
            Ok(())
        }
        Query::Privates { table, of } => write_owner(store.table(table)?, of, reply),
        Query::Holds {
            table,
            player,
            corp,
        } => write_holds(store.table(table)?, player, *corp, reply),
        Query::Price { table, corp } => {
            write_price(store.table(table)?, *corp, store.kit(), reply);
            Ok(())
        }
        Query::Order { table } => {
            write_order(store.table(table)?, store.kit(), reply);
            Ok(())
        }
        Query::Phase { table } => {
            write_phase(store.table(table)?, reply);
            Ok(())
        }
        Query::Trains { table, of } => {
            write_trains(store.table(table)?, *of, reply);
            Ok(())
        }
        Query::Iou { table } => {
            write_iou(store.table(table)?, store.kit(), reply);
            Ok(())
        }
        Query::Worth { table, player } => {
            write_worth(store.table(table)?, player, store.kit(), reply)
        }
        // `answer` sends `book` to `write_book`, so this case never comes.
        Query::Book { .. } => unreachable!(),
    }
}

/// Writes the names of all tables, in the order of opening.
fn write_names<D: Disk + Drop>(store: &Store<D>, reply: &mut Reply)
    requires whole { (held_of store.now).broken ≡ false }
    requires empty { reply.old ≡ [] }
    ensures text { reply.new ≡ answer_of (names (held_of store.now).tables) }
    ensures bounded { length reply.new ≤ 1100 }
{
    reply.text(b"=");
    for place in 0..count_of(store) {
        write_name(store, place, reply);
    }
    write_nothing(reply);
}

/// How many tables there are.
fn count_of<D: Disk + Drop>(store: &Store<D>) -> usize
    requires { (held_of store.now).broken ≡ false }
    ensures count { result ≡ length (held_of store.now).tables }
    ensures few { result ≤ MOST_TABLES }
{
    match store.count() {
        Ok(count) => count,
        // Only a store that is broken doesn't tell it.
        Err(_) => unreachable!(),
    }
}

/// Writes the name of the table at a place in the order of opening behind a space, if there is one.
fn write_name<D: Disk + Drop>(store: &Store<D>, place: usize, reply: &mut Reply)
    requires whole { (held_of store.now).broken ≡ false }
    requires room { length reply.old ≤ 4000 }
    ensures text { reply.old ≡ codes "=" ++ spaced (take place (names (held_of store.now).tables)) →
        reply.new ≡ codes "=" ++ spaced (take (place + 1) (names (held_of store.now).tables)) }
    ensures bounded { length reply.new ≤ length reply.old + 17 }
{
    match name_at(store, place) {
        Some(name) => reply.word(name.as_bytes()),
        None => {}
    }
}

/// The name of the table at a place in the order of opening, if there is one.
fn name_at<D: Disk + Drop>(store: &Store<D>, place: usize) -> Option<&Name>
    requires { (held_of store.now).broken ≡ false }
    ensures { option_copied result ≡ slice_get (names (held_of store.now).tables) place }
{
    match store.name(place) {
        Ok(found) => found,
        // Only a store that is broken doesn't tell it.
        Err(_) => unreachable!(),
    }
}

/// Writes the stamp that the next request has to have.
fn write_stamp(table: &Table, reply: &mut Reply)
    requires { reply.old ≡ [] }
    ensures text { reply_of (stamp_answer (kept_in table.now)) ≡ reply.new ++ codes "\n" }
    ensures front { tells_answer reply.new ≡ true }
    ensures bounded { length reply.new ≤ 40 }
{
    reply.text(b"= ");
    reply.number(table.stamp());
}

/// Writes how many turns have ended, and the least one to which the table can be taken back.
fn write_turns(table: &Table, reply: &mut Reply)
    requires { reply.old ≡ [] }
    ensures text { (kit : Kit) → IsPlayed kit table.now →
        reply_of (turns_answer kit (kept_in table.now)) ≡ reply.new ++ codes "\n" }
    ensures front { tells_answer reply.new ≡ true }
    ensures bounded { length reply.new ≤ 50 }
{
    reply.text(b"= ");
    reply.number(table.turns());
    reply.text(b" ");
    reply.number(table.floor());
}

/// Writes who is due, and the step; or that the game is over.
fn write_table_due(table: &Table, kit: &Kit, reply: &mut Reply)
    requires { reply.old ≡ [] }
    ensures text { IsPlayed kit.now table.now →
        reply_of (due_answer kit.now (kept_in table.now)) ≡ reply.new ++ codes "\n" }
    ensures front { tells_answer reply.new ≡ true }
    ensures bounded { length reply.new ≤ 40 }
{
    write_due(table.game(), table.game().due(kit), reply);
}

/// Writes what an account has.
fn write_cash(table: &Table, of: &Account, kit: &Kit, reply: &mut Reply) -> Result<(), Fault>
    requires { reply.old ≡ [] }
    ensures answer { IsPlayed kit.now table.now →
        Writes (cash_answer kit.now of.now (kept_in table.now)) result reply.new }
    ensures may { MayAnswer (outcome_of result reply.new) }
    ensures bounded { length reply.new ≤ 40 }
{
    let money = table.game().cash(of, kit)?;
    reply.text(b"= ");
    reply.signed(money.0);
    Ok(())
}

/// Writes the certificate limit.
fn write_limit(table: &Table, reply: &mut Reply)
    requires { reply.old ≡ [] }
    ensures text { (kit : Kit) → IsPlayed kit table.now →
        reply_of (limit_answer kit (kept_in table.now)) ≡ reply.new ++ codes "\n" }
    ensures front { tells_answer reply.new ≡ true }
    ensures bounded { length reply.new ≤ 40 }
{
    reply.text(b"= ");
    reply.number(u64::from(table.game().limit()));
}

/// Writes what is asked for the cheapest private of a table: `= -` once all are sold.
fn write_cheapest(table: &Table, kit: &Kit, reply: &mut Reply)
    requires { reply.old ≡ [] }
    ensures text { IsPlayed kit.now table.now →
        reply_of (asked_answer kit.now (kept_in table.now)) ≡ reply.new ++ codes "\n" }
    ensures front { tells_answer reply.new ≡ true }
    ensures bounded { length reply.new ≤ 40 }
{
    write_asked(table.game().asked(kit), reply);
}

/// Writes the privates of an owner.
fn write_owner(table: &Table, of: &Owner, reply: &mut Reply) -> Result<(), Fault>
    requires { reply.old ≡ [] }
    ensures answer { (kit : Kit) → IsPlayed kit table.now →
        Writes (privates_answer kit of.now (kept_in table.now)) result reply.new }
    ensures may { MayAnswer (outcome_of result reply.new) }
    ensures bounded { length reply.new ≤ 40 }
{
    let place = table.game().place(of)?;
    write_privates(table.game(), place, reply);
    Ok(())
}

/// Writes how much of a corporation a player holds.
fn write_holds(table: &Table, player: &Name, corp: Corp, reply: &mut Reply) -> Result<(), Fault>
    requires { reply.old ≡ [] }
    ensures answer { (kit : Kit) → IsPlayed kit table.now →
        Writes (holds_answer kit player.now corp (kept_in table.now)) result reply.new }
    ensures may { MayAnswer (outcome_of result reply.new) }
    ensures bounded { length reply.new ≤ 40 }
{
    let percent = table.game().holds(player, corp)?;
    reply.text(b"= ");
    reply.number(u64::from(percent));
    Ok(())
}

/// Writes the price of a corporation's shares.
fn write_price(table: &Table, corp: Corp, kit: &Kit, reply: &mut Reply)
    requires { reply.old ≡ [] }
    ensures text { IsPlayed kit.now table.now →
        reply_of (price_answer kit.now corp (kept_in table.now)) ≡ reply.new ++ codes "\n" }
    ensures front { tells_answer reply.new ≡ true }
    ensures bounded { length reply.new ≤ 70 }
{
    write_quote(table.game().price(corp, kit), reply);
}

/// Writes the corporations in operating order.
fn write_order(table: &Table, kit: &Kit, reply: &mut Reply)
    requires { reply.old ≡ [] }
    ensures text { IsPlayed kit.now table.now →
        reply_of (order_answer kit.now (kept_in table.now)) ≡ reply.new ++ codes "\n" }
    ensures front { tells_answer reply.new ≡ true }
    ensures bounded { length reply.new ≤ 50 }
{
    write_corps(table.game().order(kit).as_slice(), reply);
}

/// Writes a share's price, and the row and the column of the token's cell.
fn write_quote(quote: Option<(u16, Cell)>, reply: &mut Reply)
    requires { reply.old ≡ [] }
    ensures text { reply.new ≡ answer_of (price_words quote) }
    ensures bounded { length reply.new ≤ 70 }
{
    match quote {
        Some((price, cell)) => {
            reply.text(b"= ");
            reply.number(u64::from(price));
            reply.text(b" ");
            reply.number(u64::from(cell.row));
            reply.text(b" ");
            reply.number(u64::from(cell.column));
        }
        None => reply.text(b"= -"),
    }
}

/// Writes the names of corporations.
fn write_corps(corps: &[Corp], reply: &mut Reply)
    requires empty { reply.old ≡ [] }
    requires few { length corps.now ≤ 8 }
    ensures text { reply.new ≡ answer_of (map corp_name corps.now) }
    ensures bounded { length reply.new ≤ 50 }
{
    reply.text(b"=");
    for corp in corps {
        reply.corp(*corp);
    }
    write_nothing(reply);
}

/// Writes who is due at the game, and the step.
fn write_due(game: &Game, due: Due, reply: &mut Reply)
    requires { reply.old ≡ [] }
    ensures text { reply.new ≡ answer_of (due_words game.now.players due) }
    ensures bounded { length reply.new ≤ 40 }
{
    match due {
        Due::Turn(seat) => write_step(game, seat, b"auction", reply),
        Due::Raise(seat) => write_step(game, seat, b"raise", reply),
        Due::Par(seat) => write_step(game, seat, b"par", reply),
        Due::Stock(seat) => write_step(game, seat, b"stock", reply),
        Due::Operating(corp, step) => write_operating_step(corp, step, reply),
        Due::Over => reply.text(b"= over"),
    }
}

/// Writes the name of a corporation, and the step of its turn.
fn write_operating_step(corp: Corp, step: TurnStep, reply: &mut Reply)
    requires { reply.old ≡ [] }
    ensures text { reply.new ≡ answer_of (corp_name corp ∷ step_word step ∷ []) }
    ensures bounded { length reply.new ≤ 40 }
{
    reply.text(b"=");
    reply.corp(corp);
    reply.word(step_word(step));
}

/// The word for a step of a corporation's turn.
fn step_word(step: TurnStep) -> &'static [u8]
    ensures word { result.now ≡ step_word step }
    ensures short { length result.now ≤ 10 }
{
    match step {
        TurnStep::Lay => b"lay",
        TurnStep::Station => b"station",
        TurnStep::Run => b"run",
        TurnStep::Pay => b"pay",
        TurnStep::Train => b"train",
    }
}

/// Writes the phase.
fn write_phase(table: &Table, reply: &mut Reply)
    requires { reply.old ≡ [] }
    ensures text { (kit : Kit) → IsPlayed kit table.now →
        reply_of (phase_answer kit (kept_in table.now)) ≡ reply.new ++ codes "\n" }
    ensures front { tells_answer reply.new ≡ true }
    ensures bounded { length reply.new ≤ 40 }
{
    write_kind(table.game().phase(), reply);
}

/// Writes the name of a kind of train.
fn write_kind(kind: Kind, reply: &mut Reply)
    requires { reply.old ≡ [] }
    ensures text { reply.new ≡ answer_of (kind_name kind ∷ []) }
    ensures bounded { length reply.new ≤ 40 }
{
    reply.text(b"=");
    reply.word(kind.name().as_bytes());
}

/// Writes the trains that a corporation or the pool has at a table: `= -` for none.
fn write_trains(table: &Table, of: TrainHolder, reply: &mut Reply)
    requires { reply.old ≡ [] }
    ensures text { (kit : Kit) → IsPlayed kit table.now →
        reply_of (trains_answer kit of (kept_in table.now)) ≡ reply.new ++ codes "\n" }
    ensures front { tells_answer reply.new ≡ true }
    ensures bounded { length reply.new ≤ 400 }
{
    write_trains_of(table.game(), of, reply);
}

/// Writes the trains of a corporation or of the pool, the smallest kind first.
fn write_trains_of(game: &Game, of: TrainHolder, reply: &mut Reply)
    requires { reply.old ≡ [] }
    ensures text { (book : Book) → IsPositionOf book game.now.standing.position →
        reply.new ≡ answer_of (trains_words (train_holder book) (trains_place of)) }
    ensures front { tells_answer reply.new ≡ true }
    ensures bounded { length reply.new ≤ 400 }
{
    reply.text(b"=");
    for kind in &Kind::ALL {
        write_kinds(*kind, game.trains(of, *kind), reply);
    }
    write_nothing(reply);
}

/// Writes the name of a kind of train behind a space.
fn write_one(kind: Kind, reply: &mut Reply)
    requires { length reply.old ≤ 4090 }
    ensures text { reply.new ≡ reply.old ++ (codes " " ++ kind_name kind) }
    ensures bounded { length reply.new ≡ length reply.old + 2 }
{
    reply.word(kind.name().as_bytes());
}

/// Writes a word for each train of a kind, behind a space each.
fn write_kinds(kind: Kind, count: u8, reply: &mut Reply)
    requires few { count ≤ 20 }
    requires room { length reply.old ≤ 4000 }
    ensures text { reply.new ≡ reply.old ++ spaced (replicate count (kind_name kind)) }
    ensures bounded { length reply.new ≤ length reply.old + 3 * count }
{
    for _written in 0..count {
        write_one(kind, reply);
    }
}

/// Writes what the bank owes.
fn write_iou(table: &Table, kit: &Kit, reply: &mut Reply)
    requires { reply.old ≡ [] }
    ensures text { IsPlayed kit.now table.now →
        reply_of (iou_answer kit.now (kept_in table.now)) ≡ reply.new ++ codes "\n" }
    ensures front { tells_answer reply.new ≡ true }
    ensures bounded { length reply.new ≤ 40 }
{
    reply.text(b"= ");
    reply.number(table.game().iou(kit));
}

/// Writes what a player's cash, shares and privates are worth.
fn write_worth(table: &Table, player: &Name, kit: &Kit, reply: &mut Reply) -> Result<(), Fault>
    requires { reply.old ≡ [] }
    ensures answer { IsPlayed kit.now table.now →
        Writes (worth_answer kit.now player.now (kept_in table.now)) result reply.new }
    ensures may { MayAnswer (outcome_of result reply.new) }
    ensures bounded { length reply.new ≤ 40 }
{
    let worth = table.game().worth(player, kit)?;
    reply.text(b"= ");
    reply.signed(worth.0);
    Ok(())
}

/// Writes the name of a seat's player, and what the seat is to do.
fn write_step(game: &Game, seat: Seat, step: &[u8], reply: &mut Reply)
    requires empty { reply.old ≡ [] }
    requires short { length step.now ≤ 10 }
    ensures text { reply.new ≡ answer_of (player_word game.now.players seat ∷ step.now ∷ []) }
    ensures bounded { length reply.new ≤ 40 }
{
    reply.text(b"=");
    reply.word(game.player(seat));
    reply.word(step);
}

/// Writes a private and what is asked for it, or `= -`.
fn write_asked(asked: Option<(Private, Money)>, reply: &mut Reply)
    requires { reply.old ≡ [] }
    ensures text { reply.new ≡ answer_of (asked_words asked) }
    ensures bounded { length reply.new ≤ 30 }
{
    match asked {
        Some((private, price)) => {
            reply.text(b"=");
            reply.private(private);
            reply.text(b" ");
            reply.signed(price.0);
        }
        None => reply.text(b"= -"),
    }
}

/// Writes the privates that are at a place.
fn write_privates(game: &Game, place: Place, reply: &mut Reply)
    requires { reply.old ≡ [] }
    ensures text { reply.new ≡ answer_of (map private_name (owned (holder_in game.now.standing.position.books) place)) }
    ensures bounded { length reply.new ≤ 40 }
{
    reply.text(b"=");
    for private in &Private::ALL {
        write_owned(game, place, *private, reply);
    }
    write_nothing(reply);
}

/// Writes the private's name behind a space, if it is at the place.
fn write_owned(game: &Game, place: Place, private: Private, reply: &mut Reply)
    requires { length reply.old ≤ 4000 }
    ensures text { reply.new ≡ reply.old ++ spaced (map private_name (filter (λ p. is_at (holder_in game.now.standing.position.books (Cert.Private p)) place) (private ∷ []))) }
    ensures bounded { length reply.new ≤ length reply.old + 5 }
{
    if !game.owns(place, private) {
        return;
    }
    reply.private(private);
}

/// Writes the mark of an empty answer, if no word was written.
fn write_nothing(reply: &mut Reply)
    ensures text { (words : List (List ℕ)) → reply.old ≡ codes "=" ++ spaced words → reply.new ≡ answer_of words }
    ensures front { tells_answer reply.old ≡ true → tells_answer reply.new ≡ true }
    ensures bounded { length reply.new ≤ length reply.old + 2 }
{
    if reply.as_bytes().len() != 1 {
        return;
    }
    reply.text(b" -");
}
