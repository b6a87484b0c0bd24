//! One table: its kept commands are kept again up to its last snapshot, and played from there, or from the opening.
ghost use Rattle.std.specs.Prelude.{◌≡◌, ◌≢◌, ◌⊎◌, ◌+◌, ◌^◌, ◌<◌, ◌≤◌, ℕ, List, [], ◌∷◌, ◌++◌, None, All, length, IsTrue, IfOk, IfErr, OnErr, OnOk, MatchOption, MatchResult};
ghost use Rattle.std.specs.Bool.{OnTrue, OnFalse};
ghost use Rattle.rr_code.specs.Command.{IsCommand, SpellsCommand};
ghost use Rattle.rr_code.specs.declared.command.Command.{Command as Line};
ghost use Rattle.rr_game.specs.declared.history.fault.Fault.TheVariants as History;
ghost use Rattle.rr_game.specs.History.Playing.{ArePlayed, ends_turn};
ghost use Rattle.rr_game.specs.History.Tables.{HasItsSnapshots, IsPlayed, kept_in};
ghost use Rattle.rr_game.specs.History.Verdict.{request_judgement};
ghost use Rattle.rr_reading.specs.declared.dir.directory.TheConstants.{MOST_KEPT};
ghost use Rattle.rr_reading.specs.Lending.Commands.{bytes_at, rest_of, steps_left_of};
ghost use Rattle.rr_store.specs.Recovery.Fault.{IsOrBreaks, of_chain, of_table};
ghost use Rattle.rr_store.specs.Recovery.Kept.{AreWorded, HasPlayed, HasRoom, HoldsCommands, IsBegunBy, IsUnlawfulAfter, SpellsNoOpening};
ghost use Rattle.rr_store.specs.Recovery.Playing.{BeginsNoTable, BeginsTable, IsFrontOf, KeepsFront, KeepsNext, KeepsNoMore, PlaysNext, PlaysNoMore, Recalls, ShowsNext};
ghost use Rattle.rr_store.specs.Recovery.Reading.{OnlyReads};
ghost use Rattle.rr_store.specs.Recovery.Shown.{IsPlayWithin, ShowsPlayOf, SpellsItsGame, shown_of};
ghost use Rattle.rr_store.specs.Replayed.{begins_behind, counts_played, counts_shown, plays_behind, with_due};
ghost use Rattle.rr_turns.specs.Judgement.{IsVerdict, MayFind};
ghost use Rattle.rr_turns.specs.Kept.{kept_after};

use crate::recovery::Fault;
use crate::recovery::plays::Restored;
use crate::recovery::shown::{Snapshots, last_game, snapshots_at};
use rr_code::{Command, Players};
use rr_disk::Disk;
use rr_game::Game;
use rr_game::history::{KeptCommands, Request, Table};
use rr_kit::Kit;
use rr_pages::Damage;
use rr_reading::lending::Commands;
use std::alloc::Global;

/// A kept command that its table doesn't take.
const UNPLAYED: Fault = Fault::Damaged(Damage::Kept);

/// The table that keeps the `count` commands in the chain at this place, played on from its last snapshot. Its floor is
/// 0, and its stamp their number.
pub(crate) fn play_all<D: Disk>(
    alloc: Global,
    disk: &mut D,
    kit: &Kit,
    chains: &mut Commands,
    index: usize,
    count: u32,
    snapshots: Snapshots,
) -> Result<Restored<Table>, Fault>
    ensures restored { IfOk result (λ restored. D.Honest disk.new
        → HoldsCommands (bytes_at (D.state disk.old).content chains.old index) count (kept_in restored.value).commands) }
    // Where each of its snapshots shows the play of the commands before it, the table was played.
    ensures played { IfOk result (λ restored.
        All (ShowsPlayOf kit.now (kept_in restored.value).commands) (shown_of index snapshots.entry)
        → IsPlayed kit.now restored.value) }
    // From no snapshot it is played whole, and makes them all.
    ensures named { IfOk result (λ restored. shown_of index snapshots.entry ≡ [] → HasItsSnapshots restored.value) }
    // What stands behind the last one is played, and makes those that are due there.
    ensures plays { IfOk result (λ restored.
        restored.plays ≡ plays_behind count (counts_shown (shown_of index snapshots.entry))) }
    ensures few_plays { IfOk result (λ restored. restored.plays < 2 ^ 32) }
    ensures shown { IfOk result (λ restored. counts_played restored.value.kept.snapshots
        ≡ with_due (counts_shown (shown_of index snapshots.entry)) count) }
    ensures counted { IfOk result (λ restored. length (kept_in restored.value).commands ≡ count) }
    ensures floor { IfOk result (λ restored. (kept_in restored.value).floor ≡ 0) }
    ensures games { IfOk result (λ restored. All SpellsItsGame (shown_of index snapshots.entry)) }
    ensures worded { IfOk result (λ restored. AreWorded (kept_in restored.value).commands) }
    ensures refused { IfErr result (IsOrBreaks Damage.Kept (D.Honest disk.new → count ≤ MOST_KEPT
        → (commands : List Line) → HoldsCommands (bytes_at (D.state disk.old).content chains.old index) count commands
        → All (ShowsPlayOf kit.now commands) (shown_of index snapshots.entry)
        → ∥ ArePlayed kit.now commands ∥₁ → ⊥)) }
    ensures only_reads { OnlyReads D.Disk disk.old disk.new chains.old chains.new result }
{
    let kept = snapshots_at(alloc, index, snapshots.entries, snapshots.chains)?;
    chains.turn_to(index);
    let mut table = begin_at(alloc, disk, kit, chains, kept)?;
    let done = table.commands().len();
    if done > count as usize {
        return Err(UNPLAYED);
    }
    let mut left = count as usize - done;
    let mut plays = 0;
    'commands: loop {
        let more = play_next(alloc, disk, kit, chains, &mut table, left)?;
        if !more {
            return whole(table, left, plays);
        }
        left -= 1;
        plays += 1;
    }
}

/// The restored table, for which so many commands were played; `UNPLAYED` where commands are left over.
fn whole(table: Table, left: usize, plays: u64) -> Result<Restored<Table>, Fault>
    ensures { MatchResult result (λ whole. (whole ≡ record { value = table; plays = plays }) × (left ≡ 0))
        (λ fault. (fault ≡ Fault.Damaged Damage.Kept) × (left ≢ 0)) }
{
    if left > 0 {
        return Err(UNPLAYED);
    }
    Ok(Restored {
        value: table,
        plays,
    })
}

/// The table at the last of the kept snapshots, or behind its opening where there is none.
fn begin_at<D: Disk>(
    alloc: Global,
    disk: &mut D,
    kit: &Kit,
    chains: &mut Commands,
    kept: KeptCommands,
) -> Result<Table, Fault>
    requires { kept.commands ≡ [] }
    ensures front { IfOk result (λ table. D.Honest disk.new
        → KeepsFront (rest_of (D.state disk.old).content chains.old) (kept_in table).commands
        (rest_of (D.state disk.old).content chains.new)) }
    ensures stamped { IfOk result (λ table. D.Honest disk.new
        → (kept_in table).stamp ≡ length (kept_in table).commands) }
    ensures played { IfOk result (λ table. (commands : List Line) → IsFrontOf (kept_in table).commands commands
        → All (IsPlayWithin kit.now commands) kept.snapshots → IsPlayed kit.now table) }
    ensures named { IfOk result (λ table. kept.snapshots ≡ [] → HasItsSnapshots table) }
    ensures behind { IfOk result (λ table.
        length (kept_in table).commands ≡ begins_behind (counts_played kept.snapshots)) }
    ensures shown { IfOk result (λ table. counts_played table.kept.snapshots ≡ counts_played kept.snapshots) }
    ensures floor { IfOk result (λ table. (kept_in table).floor ≡ 0) }
    ensures worded { IfOk result (λ table. AreWorded (kept_in table).commands) }
    ensures refused { IfErr result (IsOrBreaks Damage.Kept (D.Honest disk.new → (count : ℕ) → count ≤ MOST_KEPT
        → (commands : List Line) → HoldsCommands (rest_of (D.state disk.old).content chains.old) count commands
        → All (IsPlayWithin kit.now commands) kept.snapshots → ∥ ArePlayed kit.now commands ∥₁ → ⊥)) }
    ensures only_reads { OnlyReads D.Disk disk.old disk.new chains.old chains.new result }
{
    let last = last_game(alloc, kept.snapshots())?;
    match last {
        Some(game) => recall(disk, chains, kept, game),
        None => begin_first(alloc, disk, kit, chains),
    }
}

/// The table at this game, behind as many commands as that has played.
fn recall<D: Disk>(
    disk: &mut D,
    chains: &mut Commands,
    kept: KeptCommands,
    game: Game,
) -> Result<Table, Fault>
    requires { kept.commands ≡ [] }
    ensures front { IfOk result (λ table. D.Honest disk.new
        → KeepsFront (rest_of (D.state disk.old).content chains.old) (kept_in table).commands
        (rest_of (D.state disk.old).content chains.new)) }
    ensures recalled { IfOk result (λ table. Recalls game kept.snapshots table) }
    ensures worded { IfOk result (λ table. AreWorded (kept_in table).commands) }
    ensures refused { IfErr result (IsOrBreaks Damage.Kept (D.Honest disk.new → (count : ℕ) → count ≤ MOST_KEPT
        → (commands : List Line) → HoldsCommands (rest_of (D.state disk.old).content chains.old) count commands
        → game.played ≤ count → ⊥)) }
    ensures only_reads { OnlyReads D.Disk disk.old disk.new chains.old chains.new result }
{
    let mut kept = kept;
    keep_first(disk, chains, &mut kept, game.played())?;
    match Table::of_kept(kept, game) {
        Some(table) => Ok(table),
        // As many commands are kept as the game has played.
        None => unreachable!(),
    }
}

/// Keeps so many commands of a chain. They aren't judged.
fn keep_first<D: Disk>(
    disk: &mut D,
    chains: &mut Commands,
    kept: &mut KeptCommands,
    count: u32,
) -> Result<(), Fault>
    requires { kept.old.commands ≡ [] }
    ensures front { OnOk result (D.Honest disk.new
        → KeepsFront (rest_of (D.state disk.old).content chains.old) kept.new.commands
        (rest_of (D.state disk.old).content chains.new)) }
    ensures counted { OnOk result (length kept.new.commands ≡ count) }
    ensures worded { OnOk result (AreWorded kept.new.commands) }
    ensures refused { IfErr result (IsOrBreaks Damage.Kept (D.Honest disk.new → (total : ℕ) → total ≤ MOST_KEPT
        → (commands : List Line) → HoldsCommands (rest_of (D.state disk.old).content chains.old) total commands
        → count ≤ total → ⊥)) }
    ensures snapshots { kept.new.snapshots ≡ kept.old.snapshots }
    ensures only_reads { OnlyReads D.Disk disk.old disk.new chains.old chains.new result }
{
    for _done in 0..count {
        keep_next(disk, chains, kept)?;
    }
    Ok(())
}

/// Keeps the next command of a chain.
fn keep_next<D: Disk>(
    disk: &mut D,
    chains: &mut Commands,
    kept: &mut KeptCommands,
) -> Result<(), Fault>
    ensures next { OnOk result (D.Honest disk.new
        → KeepsNext (D.state disk.old).content chains.old kept.old.commands chains.new kept.new.commands) }
    ensures counted { OnOk result (length kept.new.commands ≡ length kept.old.commands + 1) }
    ensures worded { OnOk result (AreWorded kept.old.commands → AreWorded kept.new.commands) }
    ensures refused { IfErr result (IsOrBreaks Damage.Kept (D.Honest disk.new
        → length kept.old.commands < MOST_KEPT → KeepsNoMore (rest_of (D.state disk.old).content chains.old))) }
    ensures snapshots { kept.new.snapshots ≡ kept.old.snapshots }
    ensures only_reads { OnlyReads D.Disk disk.old disk.new chains.old chains.new result }
{
    match chains.next(disk) {
        Ok(Some(words)) => keep_command(kept, words),
        Ok(None) => Err(UNPLAYED),
        Err(fault) => Err(of_chain(fault)),
    }
}

fn keep_command(kept: &mut KeptCommands, words: &[u8]) -> Result<(), Fault>
    ensures kept { OnOk result ((command : Line) × SpellsCommand words.now command
        × (kept.new.commands ≡ kept.old.commands ++ command ∷ [])) }
    ensures refused { IfErr result (λ fault. (fault ≡ Fault.OutOfMemory)
        ⊎ ((fault ≡ Fault.Damaged Damage.Kept) × (length kept.old.commands < MOST_KEPT
        → (command : Line) → SpellsCommand words.now command → ⊥))) }
    ensures snapshots { kept.new.snapshots ≡ kept.old.snapshots }
{
    match kept.keep(words) {
        Ok(true) => Ok(()),
        Ok(false) => Err(UNPLAYED),
        Err(fault) => Err(damage(fault)),
    }
}

/// The table that the first command of a chain begins.
fn begin_first<D: Disk>(
    alloc: Global,
    disk: &mut D,
    kit: &Kit,
    chains: &mut Commands,
) -> Result<Table, Fault>
    ensures begun { IfOk result (λ table. D.Honest disk.new → BeginsTable kit.now (D.state disk.old).content chains.old chains.new table) }
    ensures played { IfOk result (λ table. IsPlayed kit.now table) }
    ensures named { IfOk result (λ table. HasItsSnapshots table) }
    ensures alone { IfOk result (λ table. length (kept_in table).commands ≡ 1) }
    ensures floor { IfOk result (λ table. (kept_in table).floor ≡ 0) }
    ensures worded { IfOk result (λ table. AreWorded (kept_in table).commands) }
    ensures refused { IfErr result (IsOrBreaks Damage.Kept (D.Honest disk.new
        → BeginsNoTable (rest_of (D.state disk.old).content chains.old))) }
    ensures only_reads { OnlyReads D.Disk disk.old disk.new chains.old chains.new result }
{
    match chains.next(disk) {
        Ok(Some(words)) => begin(alloc, kit, words),
        Ok(None) => Err(UNPLAYED),
        Err(fault) => Err(of_chain(fault)),
    }
}

/// Plays the next command of a chain, if there is one. So many may be left in it.
fn play_next<D: Disk>(
    alloc: Global,
    disk: &mut D,
    kit: &Kit,
    chains: &mut Commands,
    table: &mut Table,
    left: usize,
) -> Result<bool, Fault>
    ensures more { IfOk result (λ more. OnTrue more (D.Honest disk.new
        → PlaysNext kit.now (D.state disk.old).content chains.old table.old chains.new table.new)) }
    ensures end { IfOk result (λ more. OnFalse more (D.Honest disk.new → rest_of (D.state disk.old).content chains.old ≡ [])) }
    ensures same { IfOk result (λ more. OnFalse more (table.new ≡ table.old)) }
    ensures some { IfOk result (λ more. OnTrue more (0 < left)) }
    ensures fewer { IfOk result (λ more. OnTrue more (steps_left_of chains.new < steps_left_of chains.old)) }
    ensures shown { IfOk result (λ more. OnTrue more (ShowsNext table.old table.new)) }
    ensures played { IfOk result (λ more. IsPlayed kit.now table.old → IsPlayed kit.now table.new) }
    ensures named { IfOk result (λ more. IsPlayed kit.now table.old → HasItsSnapshots table.old → HasItsSnapshots table.new) }
    ensures floor { IfOk result (λ more. (kept_in table.new).floor ≡ (kept_in table.old).floor) }
    ensures front { IfOk result (λ more. IsFrontOf (kept_in table.old).commands (kept_in table.new).commands) }
    ensures worded { IfOk result (λ more. AreWorded (kept_in table.old).commands → AreWorded (kept_in table.new).commands) }
    ensures refused { IfErr result (IsOrBreaks Damage.Kept (IsPlayed kit.now table.old → D.Honest disk.new
        → PlaysNoMore kit.now (rest_of (D.state disk.old).content chains.old) table.old left)) }
    ensures only_reads { OnlyReads D.Disk disk.old disk.new chains.old chains.new result }
{
    match chains.next(disk) {
        Ok(Some(words)) => play_one(alloc, kit, table, words, left),
        Ok(None) => Ok(false),
        Err(fault) => Err(of_chain(fault)),
    }
}

/// Plays a command, if one may be left.
fn play_one(
    alloc: Global,
    kit: &Kit,
    table: &mut Table,
    words: &[u8],
    left: usize,
) -> Result<bool, Fault>
    ensures more { IfOk result (λ more. IsTrue more) }
    ensures some { IfOk result (λ more. 0 < left) }
    ensures played { IfOk result (λ more. HasPlayed kit.now table.old words.now table.new) }
    ensures shown { IfOk result (λ more. ShowsNext table.old table.new) }
    ensures refused { IfErr result (λ fault. (fault ≡ Fault.OutOfMemory)
        ⊎ ((fault ≡ Fault.Damaged Damage.Kept) × ((left ≡ 0) ⊎ (IsPlayed kit.now table.old → HasRoom table.old
        → IsUnlawfulAfter kit.now (kept_in table.old).commands words.now)))) }
{
    if left == 0 {
        return Err(UNPLAYED);
    }
    play(alloc, kit, table, words)?;
    Ok(true)
}

/// Why a file is refused where the commands of a chain can't be read.
fn of_chain(fault: rr_pages::Fault) -> Fault
    ensures { result ≡ of_chain fault }
{
    match fault {
        rr_pages::Fault::Damaged(_) | rr_pages::Fault::NotAStore => UNPLAYED,
        rr_pages::Fault::Disk(fault) => Fault::Disk(fault),
        rr_pages::Fault::FileFull | rr_pages::Fault::HalfFull | rr_pages::Fault::OutOfMemory => {
            Fault::OutOfMemory
        }
    }
}

/// The table that an opening begins.
fn begin(alloc: Global, kit: &Kit, words: &[u8]) -> Result<Table, Fault>
    ensures begun { IfOk result (λ table. IsBegunBy kit.now words.now table) }
    ensures refused { IfErr result (λ fault. (fault ≡ Fault.OutOfMemory)
        ⊎ ((fault ≡ Fault.Damaged Damage.Kept) × SpellsNoOpening words.now)) }
{
    match players_of(words) {
        Some(players) => open(alloc, kit, &players),
        None => Err(UNPLAYED),
    }
}

fn open(alloc: Global, kit: &Kit, players: &Players) -> Result<Table, Fault>
    ensures begun { IfOk result (λ table. (words : List ℕ) → SpellsCommand words (Command.Open players.now)
        → IsBegunBy kit.now words table) }
    ensures memory { IfErr result (λ fault. fault ≡ Fault.OutOfMemory) }
{
    match Table::open(alloc, players, kit) {
        Ok(table) => Ok(table),
        Err(_) => Err(Fault::OutOfMemory),
    }
}

/// The players of an opening, if these are the words of one.
fn players_of(words: &[u8]) -> Option<Players>
    ensures { MatchOption result (SpellsNoOpening words.now)
        (λ players. SpellsCommand words.now (Command.Open players)) }
{
    match Command::read(words) {
        Ok(command) => opening_players(&command),
        Err(_) => None,
    }
}

fn opening_players(command: &Command) -> Option<Players>
    ensures { MatchOption result ((players : List (List ℕ)) → command.now ≡ Command.Open players → ⊥)
        (λ players. command.now ≡ Command.Open players) }
{
    match command {
        Command::Open { players } => Some(*players),
        _ => None,
    }
}

/// Plays a command more.
fn play(alloc: Global, kit: &Kit, table: &mut Table, words: &[u8]) -> Result<(), Fault>
    ensures played { OnOk result (HasPlayed kit.now table.old words.now table.new) }
    ensures shown { OnOk result (ShowsNext table.old table.new) }
    ensures refused { IfErr result (λ fault. (fault ≡ Fault.OutOfMemory)
        ⊎ ((fault ≡ Fault.Damaged Damage.Kept) × (IsPlayed kit.now table.old → HasRoom table.old
        → IsUnlawfulAfter kit.now (kept_in table.old).commands words.now))) }
{
    rr_game::history::laws::requests_have_one_verdict();
    let command = read_command(words)?;
    let stamp = table.stamp();
    match step(alloc, kit, table, stamp, command) {
        Ok(()) => Ok(()),
        Err(fault) => Err(damage(fault)),
    }
}

/// Plays a command with this stamp, as `Table::step` does, which doesn't tell the snapshots that it leaves.
fn step(
    alloc: Global,
    kit: &Kit,
    table: &mut Table,
    stamp: u64,
    command: Command,
) -> Result<(), rr_game::history::Fault>
    requires { IsCommand command }
    ensures verdict { IsPlayed kit.now table.old → MatchResult result
        (λ _. IsVerdict (request_judgement kit.now (kept_in table.old) stamp (Request.Play command.entry)) None)
        (λ fault. MayFind (request_judgement kit.now (kept_in table.old) stamp (Request.Play command.entry)) History.OutOfMemory fault) }
    ensures kept { OnOk result (kept_in table.new ≡
        kept_after (ends_turn kit.now) (kept_in table.old) (Request.Play command.entry)) }
    ensures played { IsPlayed kit.now table.old → IsPlayed kit.now table.new }
    ensures named { IsPlayed kit.now table.old → HasItsSnapshots table.old → HasItsSnapshots table.new }
    ensures shown { OnOk result (ShowsNext table.old table.new) }
    ensures err { OnErr result (kept_in table.new ≡ kept_in table.old) }
{
    let change = table.judge(alloc, stamp, &Request::Play(command), kit)?;
    table.reserve(&change)?;
    table.take(change);
    Ok(())
}

fn read_command<'a>(words: &'a [u8]) -> Result<Command<'a>, Fault>
    ensures { MatchResult result (λ command. SpellsCommand words.now command)
        (λ fault. (fault ≡ Fault.Damaged Damage.Kept) × ((command : Line) → SpellsCommand words.now command → ⊥)) }
{
    match Command::read(words) {
        Ok(command) => Ok(command),
        Err(_) => Err(UNPLAYED),
    }
}

/// Why a file is refused where a table refuses a command that it keeps.
fn damage(fault: rr_game::history::Fault) -> Fault
    ensures { result ≡ of_table fault }
{
    match fault {
        rr_game::history::Fault::OutOfMemory => Fault::OutOfMemory,
        _ => UNPLAYED,
    }
}
