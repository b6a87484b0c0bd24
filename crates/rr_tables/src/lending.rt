//! The snapshots of games that are lent to a checkpoint: of each table all that a file may have.
ghost use Rattle.std.specs.Prelude.{◌≡◌, ◌+◌, ◌*◌, ◌<◌, ◌≤◌, ◌++◌, [], All, IfErr, IfOk, OnOk, length, map, take};
ghost use Rattle.rr_checkpoint.specs.Plan.Snapshots.{snapshot_of};
ghost use Rattle.rr_checkpoint.specs.Plan.Transcript.{snapshots_of, tables_of};
ghost use Rattle.rr_turns.specs.declared.limits.TheConstants.{MOST_COMMANDS};
ghost use Rattle.rr_tables.specs.Lending.{KeepsAt};
ghost use Rattle.rr_tables.specs.Records.Words.{table_in_words};
ghost use Rattle.rr_tables.specs.Tables.{can_be_lent, lent_by, lent_games, lent_snapshots, snapshot_at, world_of};

use crate::{MOST_TABLES, Tables};
use rr_checkpoint::plan::{SnapshotTranscript, Transcript};
use rr_game::history::{Snapshot, Table};
use rr_pages::Fault;
use rr_reading::dir::{MOST_SNAPSHOT_BYTES, MOST_SNAPSHOTS};

// So many snapshots of a table are lent at most, so that those of all tables have room in a directory.
const MOST_LENT: usize = MOST_SNAPSHOTS / MOST_TABLES;

impl Tables {
    // Puts of each table the snapshots that are lent behind the tables.
    pub(crate) fn lend_snapshots(&self, transcript: &mut Transcript) -> Result<(), Fault>
        requires tables { tables_of transcript.old ≡ map table_in_words (world_of self.now) }
        requires none { snapshots_of transcript.old ≡ [] }
        ensures tables { tables_of transcript.new ≡ tables_of transcript.old }
        ensures snapshots { OnOk result (snapshots_of transcript.new ≡ (lent_by self.now).snapshots) }
        ensures memory { IfErr result (λ fault. fault ≡ Fault.OutOfMemory) }
    {
        for place in 0..self.count() {
            self.lend_table(place, transcript)?;
        }
        Ok(())
    }

    // Puts those of the table at a place behind those of the tables before it.
    fn lend_table(&self, place: usize, transcript: &mut Transcript) -> Result<(), Fault>
        requires place { place < length self.now.map.entries }
        requires tables { tables_of transcript.old ≡ map table_in_words (world_of self.now) }
        requires before { snapshots_of transcript.old ≡
            lent_snapshots 0 (take place (map (λ e. e.1.value) self.now.map.entries)) }
        ensures tables { tables_of transcript.new ≡ tables_of transcript.old }
        ensures snapshots { OnOk result (snapshots_of transcript.new ≡
            lent_snapshots 0 (take (place + 1) (map (λ e. e.1.value) self.now.map.entries))) }
        ensures memory { IfErr result (λ fault. fault ≡ Fault.OutOfMemory) }
    {
        match self.map.get_index(place) {
            Some((_, table)) => lend_games(place, table, transcript),
            None => unreachable!(),
        }
    }
}

// Puts the snapshots of a table that are lent behind those of the tables before its place.
fn lend_games(place: usize, table: &Table, transcript: &mut Transcript) -> Result<(), Fault>
    requires place { place < MOST_TABLES }
    requires table { KeepsAt (tables_of transcript.old) place (length table.now.kept.commands) }
    requires before { All (λ other. other.table < place) (snapshots_of transcript.old) }
    requires room { length (snapshots_of transcript.old) ≤ place * MOST_LENT }
    ensures tables { tables_of transcript.new ≡ tables_of transcript.old }
    ensures snapshots { OnOk result (snapshots_of transcript.new ≡
        snapshots_of transcript.old ++ map (snapshot_at place) (lent_games table.now)) }
    ensures memory { IfErr result (λ fault. fault ≡ Fault.OutOfMemory) }
{
    let kept = table.commands().len();
    let snapshots = table.snapshots();
    let mut count = 0;
    let mut last = 0;
    for snapshot in snapshots {
        if !can_be_lent(kept, count, last, snapshot) {
            continue;
        }
        transcript.push_snapshot(write_snapshot(place, snapshot)?)?;
        count += 1;
        last = snapshot.played();
    }
    Ok(())
}

// Whether a file may have a snapshot of a table that keeps so many commands, behind so many others, of which the last is
// of so many commands.
fn can_be_lent(kept: usize, count: usize, last: usize, snapshot: &Snapshot) -> bool
    ensures { result ≡ can_be_lent kept count last snapshot.now }
{
    let played = snapshot.played();
    count < MOST_LENT
        && last < played
        && played <= kept
        && snapshot.bytes().len() <= MOST_SNAPSHOT_BYTES as usize
}

// A snapshot of the table at a place.
fn write_snapshot(place: usize, snapshot: &Snapshot) -> Result<SnapshotTranscript, Fault>
    requires place { place < MOST_TABLES }
    requires few { snapshot.now.played ≤ MOST_COMMANDS }
    ensures value { IfOk result (λ written. snapshot_of written ≡ snapshot_at place snapshot.now) }
    ensures memory { IfErr result (λ fault. fault ≡ Fault.OutOfMemory) }
{
    Ok(SnapshotTranscript {
        table: place as u16,
        kept: snapshot.played() as u32,
        bytes: snapshot.shared().clone()?,
    })
}
