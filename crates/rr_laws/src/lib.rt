//! Laws on whole games: every table is sound, each run paid as best was best, no dividend is wrong, the book alone says
//! what trains earned, each command and each request has a verdict, the phase is the greatest kind of train ever sold,
//! and a game's bytes are few. Its modules have laws on the auction and on commands of stock rounds (`soundness`), and
//! on corporations' turns (`turns`).
//!
//! Stands on `rr_game`, the rules and `rr_referee`; nothing of the program stands on it. Its promise: the laws `sound`,
//! `best_runs_were_best`, `never_pays_a_wrong_dividend`, `revenues_are_of_the_book`, `each_command_has_a_verdict`,
//! `each_request_has_a_verdict`, `phases_are_greatest_sold` and `games_are_short`, at the root.
#![tactic(auto)]

pub mod soundness;
pub mod turns;

ghost use Rattle.rr_game.specs.History.Laws.{RequestsHaveOneVerdict};
ghost use Rattle.rr_game.specs.Laws.{CommandsHaveOneVerdict};
ghost use Rattle.rr_laws.specs.Best.{BestCommandsWereBest, BestRunsWereBest};
ghost use Rattle.rr_laws.specs.Dividends.{DividendsWereRight, HeldRevenuesWereWithheld, NeverPaysAWrongDividend, RevenuesAreInTens};
ghost use Rattle.rr_laws.specs.Revenue.{RevenueIsOfTheLastRun, RevenuesAreOfTheBook};
ghost use Rattle.rr_laws.specs.Sizes.{GamesAreNoShorter, GamesAreShort};
ghost use Rattle.rr_laws.specs.SoldTrains.{PhasesAreGreatestSold};
ghost use Rattle.rr_laws.specs.Sound.{KitsNameCorporations, PlaysGoOn, TablesStaySound};
ghost use Rattle.rr_laws.specs.WorkedRevenue.{WorkedRevenue};
ghost use Rattle.rr_laws.specs.Verdicts.{EachCommandHasAVerdict, EachRequestHasAVerdict, NoRuleWantsMemory};

/// If two to six players open a table with a right kit, every book that lawful commands make is sound. Bank, seats and
/// corporations have together what the bank began with, and only the bank may have less than nothing. Each certificate
/// has a place of the table. Each 20% certificate is in the offering, or with a player than whom no other has more of
/// the corporation. The pool has at most half of each. The kit need only name each corporation in its roster.
pub fn sound()
    ensures { TablesStaySound }
{
    rr_stock::laws::pool_stays_within_half();
    rr_stock::laws::lawful_sales_move_shares();
    rr_shares::laws::sales_move_shares();
}

/// Whatever commands a table accepts, no run of a corporation's trains earns more than one paid as best, over the board
/// as it lay then. That is a run that the book has as best, and so one whose command said so.
pub fn best_runs_were_best()
    ensures entries { BestRunsWereBest }
    ensures commands { BestCommandsWereBest }
{
    rr_referee::laws::optimal();
}

/// With a right kit each dividend that a table paid shared the revenue by percentage: the bank lost just what seats and
/// pool were due, and nobody was paid for the offering. For each revenue is a multiple of ten. What a corporation held
/// back it got whole.
pub fn dividends_were_right()
    ensures revenues { RevenuesAreInTens }
    ensures dividends { DividendsWereRight }
    ensures withheld { HeldRevenuesWereWithheld }
{
    rr_operate::dividends::laws::pays_each_holder();
    rr_operate::dividends::laws::nobody_is_paid_for_the_offering();
    rr_operate::dividends::laws::withholding_pays_the_corporation();
}

/// With a right kit a table never pays a wrong dividend: it shares by percentage what the one run of that turn earned, a
/// legal run of the corporation's trains on the board as it lay at the run. If a dividend is withheld, the trains have
/// run so or not at all, and the corporation gets all that they earned, or nothing. If the run was run as best, no legal
/// run earned more there.
pub fn never_pays_a_wrong_dividend()
    ensures { NeverPaysAWrongDividend }
{
    rr_referee::laws::optimal();
    rr_operate::dividends::laws::pays_each_holder();
    rr_operate::dividends::laws::nobody_is_paid_for_the_offering();
    rr_operate::dividends::laws::withholding_pays_the_corporation();
}

/// The book alone says what trains have earned in the turn under way: what the last run in it earned on the board and
/// with the trains as they were before that run, or nothing if no trains have run since a turn ended.
pub fn revenues_are_of_the_book()
    ensures told { RevenuesAreOfTheBook }
    ensures last_run { RevenueIsOfTheLastRun }
{}

/// The PRR runs between a city and an area off the board, and is paid what that was worth at the run, also if a first 5
/// is sold before the dividend.
pub fn worked_revenue()
    ensures { WorkedRevenue }
{}

/// The roster of each right kit names each corporation.
pub fn kits_name_corporations()
    ensures { KitsNameCorporations }
{}

/// What a table was played with, and one command more that isn't refused in its state, is what a table is played with.
pub fn plays_go_on()
    ensures { PlaysGoOn }
{}

/// Each command has one verdict, whatever the table's kit, players and state are: it is lawful, or refused with one
/// fault, which is never that memory ran out. It can't be that it is neither.
pub fn each_command_has_a_verdict()
    ensures some { EachCommandHasAVerdict }
    ensures one { CommandsHaveOneVerdict }
    ensures never_memory { NoRuleWantsMemory }
{
    rr_game::laws::commands_have_one_verdict();
}

/// Each request to a table has a verdict, whatever the table keeps, be it a command with its stamp or one to go back or
/// to forget: it is taken, or refused with one fault. It can't be that it is neither.
pub fn each_request_has_a_verdict()
    ensures some { EachRequestHasAVerdict }
    ensures one { RequestsHaveOneVerdict }
{
    rr_game::history::laws::requests_have_one_verdict();
}

/// Whatever commands a table is played with, the phase, which follows from where the trains are, is the greatest kind
/// of which some entry of the book took a train out of the offering, or 2 if no entry did.
pub fn phases_are_greatest_sold()
    ensures { PhasesAreGreatestSold }
{}

/// A game's plain values, each of its form, take 1,412 to 7,223 bytes. The difference is mostly room for 600 tiles and
/// 48 tokens on the board.
pub fn games_are_short()
    ensures most { GamesAreShort }
    ensures least { GamesAreNoShorter }
{}
