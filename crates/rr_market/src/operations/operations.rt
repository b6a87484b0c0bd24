ghost use Rattle.std.specs.Prelude.{◌≡◌, ◌≤◌, ◌<◌, ◌+◌, ◌*◌, ◌^◌, ℕ, List, [], ◌∷◌, ◌++◌, pos, neg_ℤ, ◌≤ℤ◌, is_some, if◌then◌else◌};
ghost use Rattle.rr_roster.specs.Terms.{Terms};
ghost use Rattle.rr_books.specs.declared.entries.Marker.TheVariants as M;
ghost use Rattle.rr_books.specs.declared.parties.Party.TheVariants as P;
ghost use Rattle.rr_books.specs.Book.{Book, balance_after};
ghost use Rattle.rr_books.specs.Opening.{opening_entries, starting_money};
ghost use Rattle.rr_books.specs.State.{Fits, IsStateOf, cash_of, train_place_of};
ghost use Rattle.rr_market.specs.State.{IsMarketOf};
ghost use Rattle.rr_rounds.specs.Round.{IsRoundOf};
ghost use Rattle.rr_market.specs.Operations.Phases.{phase};
ghost use Rattle.rr_market.specs.Operations.Progress.{after_act, after_bankruptcy, after_end, after_entry, after_operating, after_payment, after_run, after_step, bank_owed, had_turn, has_more_rounds, opened, progress, sheet_run};
ghost use Rattle.rr_market.specs.Operations.Due.{IsOperationsOf, begins_turn, due, due_in, first_waiting, is_waiting};

use crate::Market;
use crate::operations::phases::{phase, rounds_in_set};
use crate::operations::turn::{Stage, TurnStep};
use rr_books::{Act, Books, Corp, Entry, Kind, Marker, Party, starting_money};
use rr_roster::Roster;
use rr_roster::chart::Chart;
use rr_rounds::Rounds;
use std::marker::Model;

/// How far the operating rounds of a table have come, which stands for its book. It takes no memory, and `Copy` copies
/// it.
#[derive(Clone, Copy, Debug)]
pub struct Operations {
    pub(crate) stage: Stage,
    /// The sets of operating rounds that have begun.
    pub(crate) sets: u64,
    /// The rounds of the last set that have begun.
    pub(crate) round: u64,
    /// The rounds that the last set has.
    pub(crate) set_length: u8,
    /// Which corporations had their turn in the last round.
    pub(crate) turns: [bool; 8],
    pub(crate) step: TurnStep,
    pub(crate) has_run: bool,
    /// The least that the bank's balance was after any entry, in dollars, and 0 before the first.
    pub(crate) lowest: i64,
    /// Whether a seat said that it is bankrupt.
    pub(crate) bankrupt: bool,
    /// The tokens on the chart as the turn began.
    pub(crate) market: Market,
    /// The stock rounds as the turn began, which tell who had floated.
    pub(crate) stock: Rounds,
}

impl Model for Operations {
    ghost use Rattle.rr_market.specs.Operations.Due.{OnRounds};

    ghost Value = { OnRounds };

    ghost view = { λ o. record { progress = record { stage = o.stage; sets = o.sets; round = o.round; set_length = o.set_length; turns = o.turns; step = o.step; has_run = o.has_run; lowest = o.lowest; bankrupt = o.bankrupt }; market = o.market; stock = o.stock } };

    ghost inverse = { λ v. record { stage = v.progress.stage; sets = v.progress.sets; round = v.progress.round; set_length = v.progress.set_length; turns = v.progress.turns; step = v.progress.step; has_run = v.progress.has_run; lowest = v.progress.lowest; bankrupt = v.progress.bankrupt; market = v.market; stock = v.stock } };
}

impl Operations {
    /// The operating rounds of a table that has opened with so many players, also once its auction has begun.
    pub fn open(players: u8) -> Operations
        requires { players ≤ 6 }
        ensures value { result.progress ≡ opened players }
        ensures opening { (roster : Terms) → IsOperationsOf (opening_entries players roster) result }
        ensures auction { (roster : Terms) (names : List (List ℕ)) → IsOperationsOf (opening_entries players roster ++ Entry.Step (M.Auction names) ∷ []) result }
    {
        Operations::before_the_first_round(players)
    }

    // Of a table with so many players.
    fn before_the_first_round(players: u8) -> Operations
        requires { players ≤ 6 }
        ensures progress { result.progress ≡ opened players }
        ensures market { IsMarketOf [] result.market }
        ensures stock { IsRoundOf [] result.stock }
    {
        Operations {
            stage: Stage::Auction,
            sets: 0,
            round: 0,
            set_length: 0,
            turns: [false; 8],
            step: TurnStep::Lay,
            has_run: false,
            lowest: balance_at_first(players),
            bankrupt: false,
            market: Market::new(),
            stock: Rounds::new(),
        }
    }

    /// Follows the next entry of the book, by the books, the market and the stock rounds before it.
    pub fn follow(&mut self, entry: &Entry, books: &Books, market: &Market, stock: &Rounds)
        requires fits { Fits books.now entry.now }
        requires sets { self.old.progress.sets + 1 < 2 ^ 64 }
        requires round { self.old.progress.round + 1 < 2 ^ 64 }
        ensures book { (book : Book) → IsStateOf book books.now → IsMarketOf book market.now → IsRoundOf book stock.now → IsOperationsOf book self.old → IsOperationsOf (book ++ entry.now ∷ []) self.new }
        ensures sets { self.new.progress.sets ≤ self.old.progress.sets + 1 }
        ensures round { self.new.progress.round ≤ self.old.progress.round + 1 }
    {
        let mut next = self.after(entry, books);
        next.market = self.market_after(entry, market);
        next.stock = self.stock_after(entry, stock);
        *self = next;
    }

    /// What is under way: what the last step said of the auction, a stock round or an operating round that begins, and
    /// the auction before that.
    pub fn stage(&self) -> Stage
        ensures shown { result ≡ self.now.progress.stage }
        ensures book { (book : Book) → IsOperationsOf book self.now → result ≡ (progress book).stage }
    {
        self.stage
    }

    /// Which set of operating rounds it is, counted from 1: the last that has begun, and 0 before the first.
    pub fn set(&self) -> u64
        ensures shown { result ≡ self.now.progress.sets }
        ensures book { (book : Book) → IsOperationsOf book self.now → result ≡ (progress book).sets }
    {
        self.sets
    }

    /// Which round of the set it is, counted from 1: the last that has begun, and 0 before the first.
    pub fn round(&self) -> u64
        ensures shown { result ≡ self.now.progress.round }
        ensures book { (book : Book) → IsOperationsOf book self.now → result ≡ (progress book).round }
    {
        self.round
    }

    /// How many rounds the set has, which the phase said as its first round began.
    pub fn set_length(&self) -> u8
        ensures shown { result ≡ self.now.progress.set_length }
        ensures book { (book : Book) → IsOperationsOf book self.now → result ≡ (progress book).set_length }
    {
        self.set_length
    }

    /// Whether the set has another round after this one.
    pub fn has_more_rounds(&self) -> bool
        ensures shown { result ≡ has_more_rounds self.now.progress }
        ensures book { (book : Book) → IsOperationsOf book self.now → result ≡ has_more_rounds (progress book) }
    {
        u64::from(self.set_length) > self.round
    }

    /// Whether the corporation had its turn in the last operating round that has begun: its `end` was said since.
    pub fn had_turn(&self, corp: Corp) -> bool
        ensures shown { result ≡ had_turn self.now.progress corp }
        ensures book { (book : Book) → IsOperationsOf book self.now → result ≡ had_turn (progress book) corp }
    {
        self.turns[corp.index()]
    }

    /// The step of the turn.
    pub fn step(&self) -> TurnStep
        ensures shown { result ≡ self.now.progress.step }
        ensures book { (book : Book) → IsOperationsOf book self.now → result ≡ (progress book).step }
    {
        self.step
    }

    /// Whether the trains ran in this turn. What they earned the sheet tells, on the board and in the phase of the run.
    pub fn has_run(&self) -> bool
        ensures shown { result ≡ self.now.progress.has_run }
        ensures book { (book : Book) → IsOperationsOf book self.now → result ≡ is_some (sheet_run book) }
    {
        self.has_run
    }

    /// Whether the bank, which began with the roster's, had less than nothing after some entry. The first set of
    /// operating rounds that ends then ends the game.
    pub fn bank_owed(&self, roster: &Roster) -> bool
        ensures shown { result ≡ bank_owed roster.now self.now.progress }
        ensures book { (book : Book) → IsOperationsOf book self.now → result ≡ bank_owed roster.now (progress book) }
    {
        self.lowest < -i64::from(roster.bank())
    }

    /// Whether a seat said that it is bankrupt, which ends the game at once.
    pub fn is_bankrupt(&self) -> bool
        ensures shown { result ≡ self.now.progress.bankrupt }
        ensures book { (book : Book) → IsOperationsOf book self.now → result ≡ (progress book).bankrupt }
    {
        self.bankrupt
    }

    /// The corporation due in an operating round: of those that had floated as the turn began, and had no turn in the
    /// round, the first in the operating order as the turn began. None where all had their turn.
    pub fn due(&self, chart: &Chart) -> Option<Corp>
        ensures shown { result ≡ due_in chart.now self.now }
        ensures book { (book : Book) → IsOperationsOf book self.now → result ≡ due chart.now book }
    {
        self.due_shown(chart)
    }

    fn due_shown(&self, chart: &Chart) -> Option<Corp>
        ensures { result ≡ due_in chart.now self.now }
    {
        if self.stage != Stage::Operating {
            return None;
        }
        let order = self.market.order(chart);
        self.first_waiting(order.as_slice())
    }

    // The first of the corporations that has floated and had no turn.
    fn first_waiting(&self, order: &[Corp]) -> Option<Corp>
        ensures { result ≡ first_waiting self.now.stock.floated self.now.progress.turns order.now }
    {
        order.iter().copied().find(|corp| self.is_waiting(*corp))
    }

    fn is_waiting(&self, corp: Corp) -> bool
        ensures { result ≡ is_waiting self.now.stock.floated self.now.progress.turns corp }
    {
        self.stock.has_floated(corp) && !self.had_turn(corp)
    }

    // The tokens as the turn began, after one entry more, where they stand so now.
    fn market_after(&self, entry: &Entry, market: &Market) -> Market
        ensures { result ≡ (if begins_turn entry.now then market.now else self.now.market) }
    {
        if begins_turn(entry) {
            *market
        } else {
            self.market
        }
    }

    // The stock rounds as the turn began, after one entry more, where they have come so far now.
    fn stock_after(&self, entry: &Entry, stock: &Rounds) -> Rounds
        ensures { result ≡ (if begins_turn entry.now then stock.now else self.now.stock) }
    {
        if begins_turn(entry) {
            *stock
        } else {
            self.stock
        }
    }

    // After one entry more, apart from what the turn began with.
    fn after(&self, entry: &Entry, books: &Books) -> Operations
        requires fits { Fits books.now entry.now }
        requires sets { self.now.progress.sets + 1 < 2 ^ 64 }
        requires round { self.now.progress.round + 1 < 2 ^ 64 }
        ensures { result ≡ record self.now { progress = after_entry (phase (train_place_of books.now)) (cash_of books.now P.Bank) self.now.progress entry.now } }
    {
        match entry {
            Entry::Pay { from, to, amount } => {
                self.after_payment(books.balance(Party::Bank).0, *from, *to, amount.0)
            }
            Entry::Step(marker) => self.after_step(marker, books),
            _ => *self,
        }
    }

    // Once an amount was paid, the bank having so much before.
    fn after_payment(&self, bank: i64, from: Party, to: Party, amount: i64) -> Operations
        requires least { neg_ℤ (pos 4000000000000000000) ≤ℤ bank }
        requires greatest { bank ≤ℤ pos 4000000000000000000 }
        requires not_negative { pos 0 ≤ℤ amount }
        requires small { amount ≤ℤ pos 10000000000 }
        ensures { result ≡ record self.now { progress = after_payment bank from to (record { 0 = amount }) self.now.progress } }
    {
        let mut next = *self;
        next.lowest = self.lowest.min(bank_after(bank, from, to, amount));
        next
    }

    // After what a step says.
    fn after_step(&self, marker: &Marker, books: &Books) -> Operations
        requires sets { self.now.progress.sets + 1 < 2 ^ 64 }
        requires round { self.now.progress.round + 1 < 2 ^ 64 }
        ensures { result ≡ record self.now { progress = after_step (phase (train_place_of books.now)) marker.now self.now.progress } }
    {
        match marker {
            Marker::Auction(_) => self.at_stage(Stage::Auction),
            Marker::Act(act) => self.after_act(act),
            Marker::Float(_) => *self,
            Marker::Stock => self.at_stage(Stage::Stock),
            Marker::Operating => self.after_operating(phase(books)),
        }
    }

    // Once this is under way.
    fn at_stage(&self, stage: Stage) -> Operations
        ensures { result ≡ record self.now { progress = record self.now.progress { stage = stage } } }
    {
        let mut next = *self;
        next.stage = stage;
        next
    }

    // Once an operating round has begun.
    fn after_operating(&self, phase: Kind) -> Operations
        requires sets { self.now.progress.sets + 1 < 2 ^ 64 }
        requires round { self.now.progress.round + 1 < 2 ^ 64 }
        ensures { result ≡ record self.now { progress = after_operating phase self.now.progress } }
    {
        let mut next = *self;
        next.turns = [false; 8];
        next.step = TurnStep::Lay;
        next.has_run = false;
        if self.stage == Stage::Operating {
            next.round += 1;
            return next;
        }
        next.stage = Stage::Operating;
        next.sets += 1;
        next.round = 1;
        next.set_length = rounds_in_set(phase);
        next
    }

    // Once a command was given.
    fn after_act(&self, act: &Act) -> Operations
        ensures { result ≡ record self.now { progress = after_act act.now self.now.progress } }
    {
        match act {
            Act::Lay { .. } => self.at_step(TurnStep::Station),
            Act::Station { .. } => self.at_step(TurnStep::Run),
            Act::Run { .. } => self.after_run(),
            Act::RunBest { .. } => self.after_run(),
            Act::PayOut { .. } => self.at_step(TurnStep::Train),
            Act::Hold { .. } => self.at_step(TurnStep::Train),
            Act::End { corp } => self.after_end(*corp),
            Act::Bankrupt { .. } => self.after_bankruptcy(),
            _ => *self,
        }
    }

    // Once the turn has come to this step.
    fn at_step(&self, step: TurnStep) -> Operations
        ensures { result ≡ record self.now { progress = record self.now.progress { step = step } } }
    {
        let mut next = *self;
        next.step = step;
        next
    }

    // Once the trains have run.
    fn after_run(&self) -> Operations
        ensures { result ≡ record self.now { progress = after_run self.now.progress } }
    {
        let mut next = *self;
        next.step = TurnStep::Pay;
        next.has_run = true;
        next
    }

    // Once the corporation has ended its turn.
    fn after_end(&self, corp: Corp) -> Operations
        ensures { result ≡ record self.now { progress = after_end corp self.now.progress } }
    {
        let mut next = *self;
        next.turns[corp.index()] = true;
        next.step = TurnStep::Lay;
        next.has_run = false;
        next
    }

    // Once a seat has said that it is bankrupt.
    fn after_bankruptcy(&self) -> Operations
        ensures { result ≡ record self.now { progress = after_bankruptcy self.now.progress } }
    {
        let mut next = *self;
        next.bankrupt = true;
        next
    }
}

// Whether the entry begins a turn.
fn begins_turn(entry: &Entry) -> bool
    ensures { result ≡ begins_turn entry.now }
{
    matches!(
        entry,
        Entry::Step(Marker::Act(Act::End { .. }) | Marker::Operating)
    )
}

// The bank's balance once it has paid each of so many players the money for the start.
fn balance_at_first(players: u8) -> i64
    requires { players ≤ 6 }
    ensures { result ≡ neg_ℤ (pos (players * starting_money players)) }
{
    -(i64::from(players) * starting_money(players).0)
}

// The bank's balance, which was so much, once the amount was paid.
fn bank_after(bank: i64, from: Party, to: Party, amount: i64) -> i64
    requires least { neg_ℤ (pos 4000000000000000000) ≤ℤ bank }
    requires greatest { bank ≤ℤ pos 4000000000000000000 }
    requires not_negative { pos 0 ≤ℤ amount }
    requires small { amount ≤ℤ pos 10000000000 }
    ensures { result ≡ balance_after P.Bank bank (Entry.Pay from to (record { 0 = amount })) }
{
    match (from, to) {
        (Party::Bank, Party::Bank) => bank,
        (Party::Bank, _) => bank - amount,
        (_, Party::Bank) => bank + amount,
        _ => bank,
    }
}
