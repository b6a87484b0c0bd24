//! Requests: judged, their records kept, and then taken.
ghost use Rattle.std.specs.Prelude.{◌≡◌, ◌<◌, ℕ, List, Option, length, IfOk, IfErr, OnOk, OnErr, MatchOption, MatchResult, None, Some, bytes_eq, option_map};
ghost use Rattle.indexmap.specs.IndexMap.{get, index_map_len};
ghost use Rattle.rr_code.specs.Request.{IsRequest, record_text};
ghost use Rattle.rr_code.specs.declared.command.Command.{Command as Line};
ghost use Rattle.rr_game.specs.History.Changing.{Fits, IsChangeBy, kept_with};
ghost use Rattle.rr_game.specs.History.Playing.{ends_turn};
ghost use Rattle.rr_game.specs.History.Seeing.{Heeds, IsSeenAs, MayRefuseBy, Seen, judgement_at};
ghost use Rattle.rr_game.specs.History.Tables.{HasItsSnapshots, HasRoomFor, IsPlayed, ShowsBy, kept_in};
ghost use Rattle.rr_kit.specs.declared.kit.Kit.{Kit as AnyKit};
ghost use Rattle.rr_tables.specs.Records.Fault.{of_table};
ghost use Rattle.rr_tables.specs.Records.World.{judgement_in, opening_verdict, state_after, step_judgement, table_named, world_after};
ghost use Rattle.rr_tables.specs.declared.records.fault.Fault.TheVariants as R;
ghost use Rattle.rr_tables.specs.Changing.{HasRoomIn, IsChangeOf, IsWritableChange};
ghost use Rattle.rr_tables.specs.Tables.{AreSame, ArePlayed, HaveTheirSnapshots, kept_in_box, lent_by, world_of};
ghost use Rattle.rr_tables.specs.Seeing.{HeedsIn, IsSeenAt, MayRefuseSeen, plain_step, plain_verdict, step_judgement_at, world_judgement_at};
ghost use Rattle.rr_tables.specs.Taking.{MayRefuse, Passed, plays_of};
ghost use Rattle.rr_tables.specs.Writable.{IsWritable};
ghost use Rattle.rr_turns.specs.Judgement.{IsVerdict, MayFind, judgement_map, settled};
ghost use Rattle.rr_turns.specs.Kept.{kept_after};
ghost use Rattle.rr_turns.specs.declared.request.Request.{Request as AnyRequest};

use crate::{Fault, Journal, Tables, records};
use rr_code::{Command, Players};
use rr_game::history::{Change, Request, Table};
use rr_kit::Kit;
use rr_reading::dir::MOST_TABLES;
use rr_words::Name;
use std::alloc::Global;

/// What is told of a request that was taken.
#[derive(Clone, Copy, Debug)]
pub struct Taken {
    /// The table's new stamp.
    pub stamp: u64,
    /// How many commands were played to work out what the request makes of the table: as often was its game stepped.
    pub plays: usize,
}

impl Tables {
    /// Judges a request, has its record kept, and lets it count. All memory is taken before the record is to be kept. A
    /// refusal leaves the tables as they were.
    ///
    /// # Errors
    /// As faults of the rules, of which the journal learns nothing: for an opening `StaleStamp` and `TooManyTables`;
    /// for another request `NoSuchTable`, `StaleStamp`, `TooManyCommands`, and then `TurnNotKept` for one that takes
    /// the table back or forgets, or what the game refuses; then `OutOfMemory`, also for a command of more than 65,535
    /// bytes, which no table could keep. As a fault of the file what the journal refuses.
    pub fn take<J: Journal>(
        &mut self,
        alloc: Global,
        stamp: u64,
        name: &Name,
        request: &Request<Command>,
        journal: &mut J,
    ) -> Result<Taken, Fault>
        requires { IsRequest request.now }
        ensures verdict { ArePlayed self.old → MatchResult result
            (λ _. IsVerdict (judgement_in self.old.kit (world_of self.old) stamp name.now request.now) None)
            (MayRefuse (judgement_in self.old.kit (world_of self.old) stamp name.now request.now)) }
        ensures judged { (seen : Option Seen) → IsSeenAt self.old name.now seen → MatchResult result
            (λ _. IsVerdict (world_judgement_at self.old.kit seen (length (world_of self.old)) stamp request.now) None)
            (MayRefuseSeen (world_judgement_at self.old.kit seen (length (world_of self.old)) stamp request.now) request.now) }
        ensures plain { MatchResult result
            (λ _. plain_verdict (table_named (world_of self.old) name.now) (length (world_of self.old)) stamp request.now ≡ None)
            (HeedsIn (plain_verdict (table_named (world_of self.old) name.now) (length (world_of self.old)) stamp request.now)) }
        ensures kept { Passed J.Keeps journal.old (lent_by self.old) (record_text name.now request.now) journal.new result }
        ensures world { OnOk result (ArePlayed self.old
            → world_of self.new ≡ world_after self.old.kit (world_of self.old) name.now request.now) }
        ensures stamp { IfOk result (λ taken. taken.stamp ≡ (state_after self.old.kit (table_named (world_of self.old) name.now) request.now).stamp) }
        ensures plays { IfOk result (λ taken. ArePlayed self.old → HaveTheirSnapshots self.old
            → taken.plays ≡ plays_of self.old.kit (table_named (world_of self.old) name.now) request.now) }
        ensures played { ArePlayed self.old → ArePlayed self.new }
        ensures snapshots { ArePlayed self.old → HaveTheirSnapshots self.old → HaveTheirSnapshots self.new }
        ensures kit { self.new.kit ≡ self.old.kit }
        ensures err { OnErr result (world_of self.new ≡ world_of self.old) }
    {
        match opening_of(request) {
            Some(players) => self.open(alloc, stamp, name, players, journal),
            None => self.step(alloc, stamp, name, request, journal),
        }
    }

    // Opens a table: judges the request, has its record kept, and adds the table.
    fn open<J: Journal>(
        &mut self,
        alloc: Global,
        stamp: u64,
        name: &Name,
        players: &Players,
        journal: &mut J,
    ) -> Result<Taken, Fault>
        requires { IsRequest (Request.Play (Command.Open players.now)) }
        ensures verdict { MatchResult result
            (λ _. IsVerdict (settled (opening_verdict (option_map kept_in_box (get bytes_eq self.old.map name.now)) (index_map_len self.old.map) stamp)) None)
            (MayRefuse (settled (opening_verdict (option_map kept_in_box (get bytes_eq self.old.map name.now)) (index_map_len self.old.map) stamp))) }
        ensures kept { Passed J.Keeps journal.old (lent_by self.old) (record_text name.now (Request.Play (Command.Open players.now))) journal.new result }
        ensures world { OnOk result (world_of self.new ≡ world_after self.old.kit (world_of self.old) name.now (Request.Play (Command.Open players.now))) }
        ensures stamp { IfOk result (λ taken. (taken.stamp ≡ 1) × (get bytes_eq self.old.map name.now ≡ None)) }
        ensures plays { IfOk result (λ taken. taken.plays ≡ 0) }
        ensures played { ArePlayed self.old → ArePlayed self.new }
        ensures snapshots { ArePlayed self.old → HaveTheirSnapshots self.old → HaveTheirSnapshots self.new }
        ensures kit { self.new.kit ≡ self.old.kit }
        ensures err { OnErr result (world_of self.new ≡ world_of self.old) }
    {
        self.judge_opening(stamp, name)?;
        let table = open_table(alloc, players, &self.kit)?;
        let opening = Request::Play(Command::Open { players: *players });
        journal.keep(self, name, &opening)?;
        self.add(*name, table);
        Ok(Taken { stamp: 1, plays: 0 })
    }

    fn judge_opening(&self, stamp: u64, name: &Name) -> Result<(), records::Fault>
        ensures verdict { MatchResult result
            (λ _. opening_verdict (option_map kept_in_box (get bytes_eq self.now.map name.now)) (index_map_len self.now.map) stamp ≡ None)
            (λ fault. opening_verdict (option_map kept_in_box (get bytes_eq self.now.map name.now)) (index_map_len self.now.map) stamp ≡ Some fault) }
        ensures absent { OnOk result (get bytes_eq self.now.map name.now ≡ None) }
        ensures few { OnOk result (index_map_len self.now.map < MOST_TABLES) }
    {
        if let Some(table) = self.map.get(name) {
            return Err(records::Fault::StaleStamp(table.stamp()));
        }
        if stamp != 0 {
            return Err(records::Fault::StaleStamp(0));
        }
        if self.map.len() >= MOST_TABLES {
            return Err(records::Fault::TooManyTables);
        }
        Ok(())
    }

    // Lets the table of this name take a request.
    fn step<J: Journal>(
        &mut self,
        alloc: Global,
        stamp: u64,
        name: &Name,
        request: &Request<Command>,
        journal: &mut J,
    ) -> Result<Taken, Fault>
        requires { IsRequest request.now }
        ensures verdict { ArePlayed self.old → MatchResult result
            (λ _. IsVerdict (step_judgement self.old.kit (option_map kept_in_box (get bytes_eq self.old.map name.now)) stamp request.now) None)
            (MayRefuse (step_judgement self.old.kit (option_map kept_in_box (get bytes_eq self.old.map name.now)) stamp request.now)) }
        ensures judged { (seen : Option Seen) → IsSeenAt self.old name.now seen → MatchResult result
            (λ _. IsVerdict (step_judgement_at self.old.kit seen stamp request.now) None)
            (MayRefuseSeen (step_judgement_at self.old.kit seen stamp request.now) request.now) }
        ensures plain { MatchResult result
            (λ _. plain_step (option_map kept_in_box (get bytes_eq self.old.map name.now)) stamp request.now ≡ None)
            (HeedsIn (plain_step (option_map kept_in_box (get bytes_eq self.old.map name.now)) stamp request.now)) }
        ensures kept { Passed J.Keeps journal.old (lent_by self.old) (record_text name.now request.now) journal.new result }
        ensures world { OnOk result (ArePlayed self.old
            → world_of self.new ≡ world_after self.old.kit (world_of self.old) name.now request.now) }
        ensures stamp { IfOk result (λ taken. taken.stamp ≡ (state_after self.old.kit (option_map kept_in_box (get bytes_eq self.old.map name.now)) request.now).stamp) }
        ensures plays { IfOk result (λ taken. ArePlayed self.old → HaveTheirSnapshots self.old
            → taken.plays ≡ plays_of self.old.kit (option_map kept_in_box (get bytes_eq self.old.map name.now)) request.now) }
        ensures played { ArePlayed self.old → ArePlayed self.new }
        ensures snapshots { ArePlayed self.old → HaveTheirSnapshots self.old → HaveTheirSnapshots self.new }
        ensures kit { self.new.kit ≡ self.old.kit }
        ensures err { OnErr result (world_of self.new ≡ world_of self.old) }
    {
        let change = self.prepare(alloc, stamp, name, request)?;
        journal.keep(self, name, request)?;
        let plays = change.plays();
        let stamp = self.change(name, change);
        Ok(Taken { stamp, plays })
    }

    // Judges a request to a table that is open, works out what it makes of it, and takes room for that.
    fn prepare(
        &mut self,
        alloc: Global,
        stamp: u64,
        name: &Name,
        request: &Request<Command>,
    ) -> Result<Change, records::Fault>
        requires { IsRequest request.now }
        ensures verdict { ArePlayed self.old → MatchResult result
            (λ _. IsVerdict (step_judgement self.old.kit (option_map kept_in_box (get bytes_eq self.old.map name.now)) stamp request.now) None)
            (MayFind (step_judgement self.old.kit (option_map kept_in_box (get bytes_eq self.old.map name.now)) stamp request.now) R.OutOfMemory) }
        ensures judged { (seen : Option Seen) → IsSeenAt self.old name.now seen → MatchResult result
            (λ _. IsVerdict (step_judgement_at self.old.kit seen stamp request.now) None)
            (MayRefuseBy (step_judgement_at self.old.kit seen stamp request.now) R.OutOfMemory request.now) }
        ensures plain { MatchResult result
            (λ _. plain_step (option_map kept_in_box (get bytes_eq self.old.map name.now)) stamp request.now ≡ None)
            (Heeds (plain_step (option_map kept_in_box (get bytes_eq self.old.map name.now)) stamp request.now)) }
        ensures change { IfOk result (λ change. IsChangeOf self.new.kit (get bytes_eq self.new.map name.now) request.now change) }
        ensures room { IfOk result (HasRoomIn (get bytes_eq self.new.map name.now)) }
        ensures same { AreSame name.now self.old self.new }
    {
        let change = self.judge(alloc, stamp, name, request)?;
        self.reserve(name, &change)?;
        Ok(change)
    }

    // Takes room for what a change adds in the table of this name.
    fn reserve(&mut self, name: &Name, change: &Change) -> Result<(), records::Fault>
        requires { (request : AnyRequest Line) × IsChangeOf self.old.kit (get bytes_eq self.old.map name.now) request change.now }
        ensures room { OnOk result (HasRoomIn (get bytes_eq self.new.map name.now) change.now) }
        ensures change { (request : AnyRequest Line) → IsChangeOf self.old.kit (get bytes_eq self.old.map name.now) request change.now →
            IsChangeOf self.new.kit (get bytes_eq self.new.map name.now) request change.now }
        ensures same { AreSame name.now self.old self.new }
        ensures memory { IfErr result (λ fault. fault ≡ R.OutOfMemory) }
    {
        match self.map.get_mut(name) {
            Some(table) => make_room(table, change),
            None => unreachable!(),
        }
    }

    // Judges a request to a table that is open, and works out what it makes of it.
    fn judge(
        &self,
        alloc: Global,
        stamp: u64,
        name: &Name,
        request: &Request<Command>,
    ) -> Result<Change, records::Fault>
        requires { IsRequest request.now }
        ensures verdict { ArePlayed self.now → MatchResult result
            (λ _. IsVerdict (step_judgement self.now.kit (option_map kept_in_box (get bytes_eq self.now.map name.now)) stamp request.now) None)
            (MayFind (step_judgement self.now.kit (option_map kept_in_box (get bytes_eq self.now.map name.now)) stamp request.now) R.OutOfMemory) }
        ensures judged { (seen : Option Seen) → IsSeenAt self.now name.now seen → MatchResult result
            (λ _. IsVerdict (step_judgement_at self.now.kit seen stamp request.now) None)
            (MayRefuseBy (step_judgement_at self.now.kit seen stamp request.now) R.OutOfMemory request.now) }
        ensures plain { MatchResult result
            (λ _. plain_step (option_map kept_in_box (get bytes_eq self.now.map name.now)) stamp request.now ≡ None)
            (Heeds (plain_step (option_map kept_in_box (get bytes_eq self.now.map name.now)) stamp request.now)) }
        ensures change { IfOk result (λ change. IsChangeOf self.now.kit (get bytes_eq self.now.map name.now) request.now change) }
    {
        match self.map.get(name) {
            Some(table) => judge_at(alloc, stamp, request, table, &self.kit),
            None => Err(records::Fault::NoSuchTable),
        }
    }

    // Makes a change of the table of this name, that was worked out for it as it is, and for which there is room; gives
    // its new stamp.
    fn change(&mut self, name: &Name, change: Change) -> u64
        requires by { (request : AnyRequest Line) × IsChangeOf self.old.kit (get bytes_eq self.old.map name.now) request change }
        requires room { HasRoomIn (get bytes_eq self.old.map name.now) change }
        ensures world { (request : AnyRequest Line) → IsChangeOf self.old.kit (get bytes_eq self.old.map name.now) request change →
            ArePlayed self.old → world_of self.new ≡ world_after self.old.kit (world_of self.old) name.now request }
        ensures stamp { (request : AnyRequest Line) → IsChangeOf self.old.kit (get bytes_eq self.old.map name.now) request change →
            result ≡ (state_after self.old.kit (option_map kept_in_box (get bytes_eq self.old.map name.now)) request).stamp }
        ensures played { (request : AnyRequest Line) → IsChangeOf self.old.kit (get bytes_eq self.old.map name.now) request change →
            ArePlayed self.old → ArePlayed self.new }
        ensures snapshots { (request : AnyRequest Line) → IsChangeOf self.old.kit (get bytes_eq self.old.map name.now) request change →
            ArePlayed self.old → HaveTheirSnapshots self.old → HaveTheirSnapshots self.new }
        ensures kit { self.new.kit ≡ self.old.kit }
    {
        match self.map.get_mut(name) {
            Some(table) => make(table, change),
            None => unreachable!(),
        }
    }
}

// The players of an opening, if the request is one.
fn opening_of<'a>(request: &'a Request<Command>) -> Option<&'a Players>
    ensures { MatchOption result ((players : List (List ℕ)) → request.now ≡ Request.Play (Command.Open players) → ⊥)
        (λ players. request.now ≡ Request.Play (Command.Open players.now)) }
{
    match request {
        Request::Play(command) => match command {
            Command::Open { players } => Some(players),
            _ => None,
        },
        Request::Back(_) | Request::Forget(_) => None,
    }
}

// The table that these players open, in a box: a map moves its values about.
fn open_table(alloc: Global, players: &Players, kit: &Kit) -> Result<Box<Table>, records::Fault>
    requires { IsRequest (Request.Play (Command.Open players.now)) }
    ensures kept { IfOk result (λ table. kept_in_box table ≡ state_after kit.now None (Request.Play (Command.Open players.now))) }
    ensures played { IfOk result (λ table. IsPlayed kit.now table.value) }
    ensures snapshots { IfOk result (λ table. HasItsSnapshots table.value) }
    ensures writable { IfOk result (λ table. IsWritable (kept_in table.value)) }
    ensures memory { IfErr result (λ fault. fault ≡ R.OutOfMemory) }
{
    let table = Table::open(alloc, players, kit)?;
    match Box::new(alloc, table) {
        Ok(table) => Ok(table),
        Err(_) => Err(records::Fault::OutOfMemory),
    }
}

// Judges a request to this table, and works out what it makes of it.
fn judge_at(
    alloc: Global,
    stamp: u64,
    request: &Request<Command>,
    table: &Table,
    kit: &Kit,
) -> Result<Change, records::Fault>
    requires request { IsRequest request.now }
    requires writable { IsWritable (kept_in table.now) }
    ensures verdict { IsPlayed kit.now table.now → MatchResult result
        (λ _. IsVerdict (step_judgement kit.now (Some (kept_in table.now)) stamp request.now) None)
        (MayFind (step_judgement kit.now (Some (kept_in table.now)) stamp request.now) R.OutOfMemory) }
    ensures judged { (seen : Seen) → IsSeenAs table.now seen → MatchResult result
        (λ _. IsVerdict (judgement_map of_table (judgement_at kit.now seen stamp request.now)) None)
        (MayRefuseBy (judgement_map of_table (judgement_at kit.now seen stamp request.now)) R.OutOfMemory request.now) }
    ensures plain { MatchResult result
        (λ _. plain_step (Some (kept_in table.now)) stamp request.now ≡ None)
        (Heeds (plain_step (Some (kept_in table.now)) stamp request.now)) }
    ensures change { IfOk result (λ change. IsWritableChange kit.now table.now request.now change) }
{
    let change = table.judge(alloc, stamp, request, kit)?;
    Ok(change)
}

// Takes room in a table for what a change adds.
fn make_room(table: &mut Box<Table>, change: &Change) -> Result<(), records::Fault>
    ensures room { OnOk result (HasRoomFor table.new.value change.now) }
    ensures kept { kept_in_box table.new ≡ kept_in_box table.old }
    ensures game { table.new.value.game ≡ table.old.value.game }
    ensures snapshots { table.new.value.kept.snapshots ≡ table.old.value.kept.snapshots }
    ensures memory { IfErr result (λ fault. fault ≡ R.OutOfMemory) }
{
    table.reserve(change)?;
    Ok(())
}

// Makes a change of a table; gives its new stamp.
fn make(table: &mut Box<Table>, change: Change) -> u64
    requires fits { Fits (kept_in_box table.old) change }
    requires room { HasRoomFor table.old.value change }
    ensures kept { (kit : AnyKit) (request : AnyRequest Line) → IsChangeBy kit (kept_in_box table.old) request change →
        kept_in_box table.new ≡ kept_after (ends_turn kit) (kept_in_box table.old) request }
    ensures played { (kit : AnyKit) (request : AnyRequest Line) → IsPlayed kit table.old.value →
        IsChangeBy kit (kept_in_box table.old) request change → IsPlayed kit table.new.value }
    ensures snapshots { (kit : AnyKit) (request : AnyRequest Line) → IsPlayed kit table.old.value →
        IsChangeBy kit (kept_in_box table.old) request change → ShowsBy table.old.value request change →
        HasItsSnapshots table.old.value → HasItsSnapshots table.new.value }
    ensures with { kept_in_box table.new ≡ kept_with (kept_in_box table.old) change }
    ensures stamp { result ≡ (kept_in_box table.new).stamp }
{
    table.take(change);
    table.stamp()
}
