//! Records, taken in turn.
ghost use Rattle.std.specs.Prelude.{◌≡◌, ◌⊎◌, ◌≤◌, ◌++◌, length, IfOk, IfErr, OnOk};
ghost use Rattle.rr_pages.specs.declared.journal.layout.TheConstants.{LAST_SLOT};
ghost use Rattle.rr_pages.specs.Journal.Reading.{lines};
ghost use Rattle.rr_tables.specs.Records.Lines.{IsUnlawful, TakesRecord};
ghost use Rattle.rr_store.specs.Recovery.Taking.{of_tables};
ghost use Rattle.rr_store.specs.Recovery.Replaying.{AreReplayed, BreaksOff, IsTranscriptBefore, Replays};
ghost use Rattle.rr_store.specs.Replayed.{PlaysRecord, PlaysRecords};
ghost use Rattle.rr_tables.specs.Tables.{ArePlayed, HaveTheirSnapshots, world_of};

use crate::recovery::Fault;
use crate::recovery::plays::Restored;
use rr_checkpoint::plan::Transcript;
use rr_code::read_record;
use rr_log::TablesInWords;
use rr_pages::Damage;
use rr_tables::{Standing, Tables};
use std::alloc::Global;

/// Takes the near records and then the far ones. Where there are far records, it gives the tables from before them.
pub(crate) fn replay_halves(
    alloc: Global,
    tables: &mut Tables,
    near: &[Vec<u8>],
    far: &[Vec<u8>],
) -> Result<Restored<Option<Transcript>>, Fault>
    ensures replayed { IfOk result (λ restored. ArePlayed tables.old
        → AreReplayed tables.old.kit tables.old (lines near.now) (lines far.now) restored.value (world_of tables.new)) }
    // Of as many records as the halves of a journal may have.
    ensures plays { IfOk result (λ restored. ArePlayed tables.old → HaveTheirSnapshots tables.old
        → length near.now ≤ LAST_SLOT → length far.now ≤ LAST_SLOT
        → PlaysRecords tables.old.kit (world_of tables.old) (lines near.now ++ lines far.now) (world_of tables.new) restored.plays) }
    ensures refused { IfErr result (λ fault. (fault ≡ Fault.OutOfMemory)
        ⊎ ((fault ≡ Fault.Damaged Damage.Records) × (ArePlayed tables.old
        → BreaksOff tables.old.kit (world_of tables.old) (lines near.now ++ lines far.now)))) }
    ensures kit { tables.new.kit ≡ tables.old.kit }
    ensures played { ArePlayed tables.old → ArePlayed tables.new }
    ensures snapshots { ArePlayed tables.old → HaveTheirSnapshots tables.old → HaveTheirSnapshots tables.new }
{
    let near_plays = replay(alloc, tables, near)?;
    let base = transcript_before(alloc, tables, far)?;
    let far_plays = replay(alloc, tables, far)?;
    Ok(Restored {
        value: base,
        plays: near_plays.saturating_add(far_plays),
    })
}

/// The tables, where there are far records.
fn transcript_before(
    alloc: Global,
    tables: &Tables,
    far: &[Vec<u8>],
) -> Result<Option<Transcript>, Fault>
    ensures base { IfOk result (IsTranscriptBefore (lines far.now) tables.now) }
    ensures memory { IfErr result (λ fault. fault ≡ Fault.OutOfMemory) }
{
    if far.is_empty() {
        return Ok(None);
    }
    match tables.transcript(alloc) {
        Ok(transcript) => Ok(Some(transcript)),
        Err(_) => Err(Fault::OutOfMemory),
    }
}

/// Takes records in turn, and tells how many commands were played for them.
fn replay(alloc: Global, tables: &mut Tables, records: &[Vec<u8>]) -> Result<u64, Fault>
    ensures replayed { OnOk result (ArePlayed tables.old
        → Replays tables.old.kit (world_of tables.old) (lines records.now) (world_of tables.new)) }
    ensures plays { IfOk result (λ plays. ArePlayed tables.old → HaveTheirSnapshots tables.old → length records.now ≤ LAST_SLOT
        → PlaysRecords tables.old.kit (world_of tables.old) (lines records.now) (world_of tables.new) plays) }
    ensures refused { IfErr result (λ fault. (fault ≡ Fault.OutOfMemory)
        ⊎ ((fault ≡ Fault.Damaged Damage.Records) × (ArePlayed tables.old
        → BreaksOff tables.old.kit (world_of tables.old) (lines records.now)))) }
    ensures kit { tables.new.kit ≡ tables.old.kit }
    ensures played { ArePlayed tables.old → ArePlayed tables.new }
    ensures snapshots { ArePlayed tables.old → HaveTheirSnapshots tables.old → HaveTheirSnapshots tables.new }
{
    let mut plays: u64 = 0;
    for bytes in records {
        let played = replay_record(alloc, tables, bytes)?;
        plays = plays.saturating_add(played);
    }
    Ok(plays)
}

fn replay_record(alloc: Global, tables: &mut Tables, bytes: &[u8]) -> Result<u64, Fault>
    ensures taken { OnOk result (ArePlayed tables.old
        → TakesRecord tables.old.kit (world_of tables.old) bytes.now (world_of tables.new)) }
    ensures plays { IfOk result (λ plays. ArePlayed tables.old → HaveTheirSnapshots tables.old
        → PlaysRecord tables.old.kit (world_of tables.old) bytes.now (world_of tables.new) plays) }
    ensures refused { IfErr result (λ fault. (fault ≡ Fault.OutOfMemory)
        ⊎ ((fault ≡ Fault.Damaged Damage.Records) × (ArePlayed tables.old
        → IsUnlawful tables.old.kit (world_of tables.old) bytes.now))) }
    ensures kit { tables.new.kit ≡ tables.old.kit }
    ensures played { ArePlayed tables.old → ArePlayed tables.new }
    ensures snapshots { ArePlayed tables.old → HaveTheirSnapshots tables.old → HaveTheirSnapshots tables.new }
{
    rr_game::history::laws::requests_have_one_verdict();
    let (name, request) = read_record(bytes)?;
    let stamp = tables.stamp(&name);
    match tables.take(alloc, stamp, &name, &request, &mut Standing) {
        Ok(taken) => Ok(taken.plays as u64),
        Err(fault) => Err(damage(fault)),
    }
}

/// Why a file is refused where the tables refuse a record of it.
fn damage(fault: rr_tables::Fault) -> Fault
    ensures { result ≡ of_tables fault }
{
    match fault {
        rr_tables::Fault::Rules(rr_tables::records::Fault::OutOfMemory) => Fault::OutOfMemory,
        _ => Fault::Damaged(Damage::Records),
    }
}
