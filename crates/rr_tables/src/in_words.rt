//! The tables in words, for a checkpoint, and behind them the snapshots that are lent.
ghost use Rattle.std.specs.Prelude.{◌≡◌, ◌<◌, ◌≤◌, [], length, map, slice_get, IfOk, IfErr, Some};
ghost use Rattle.rr_game.specs.History.Tables.{kept_in};
ghost use Rattle.rr_tables.specs.Records.Words.{table_in_words};
ghost use Rattle.rr_checkpoint.specs.Plan.Transcript.{commands_of, snapshots_of, table_of, tables_of};
ghost use Rattle.rr_tables.specs.Tables.{lent_by, world_of};
ghost use Rattle.rr_tables.specs.Writable.{IsWritable};

use crate::Tables;
use rr_checkpoint::plan::{TableTranscript, Transcript};
use rr_game::history::Table;
use rr_log::TablesInWords;
use rr_pages::Fault;
use rr_words::Name;
use std::alloc::Global;

impl TablesInWords for Tables {
    ghost tables = { λ tables. (lent_by tables).tables };

    ghost snapshots = { λ tables. (lent_by tables).snapshots };

    fn transcript(&self, alloc: Global) -> Result<Transcript, Fault> {
        let mut transcript = self.write_tables(alloc)?;
        self.lend_snapshots(&mut transcript)?;
        Ok(transcript)
    }
}

impl Tables {
    // The tables, without snapshots.
    fn write_tables(&self, alloc: Global) -> Result<Transcript, Fault>
        ensures tables { IfOk result (λ transcript. tables_of transcript ≡ map table_in_words (world_of self.now)) }
        ensures snapshots { IfOk result (λ transcript. snapshots_of transcript ≡ []) }
        ensures memory { IfErr result (λ fault. fault ≡ Fault.OutOfMemory) }
    {
        let mut transcript = Transcript::new(alloc);
        for place in 0..self.map.len() {
            let table = self.table_at(alloc, place)?;
            transcript.push(table)?;
        }
        Ok(transcript)
    }

    // The table at a place in the order of opening.
    fn table_at(&self, alloc: Global, place: usize) -> Result<TableTranscript, Fault>
        requires { place < length self.now.map.entries }
        ensures table { IfOk result (λ written. slice_get (map table_in_words (world_of self.now)) place ≡ Some (table_of written)) }
        ensures some { IfOk result (λ written. 1 ≤ length (commands_of written)) }
        ensures memory { IfErr result (λ fault. fault ≡ Fault.OutOfMemory) }
    {
        match self.map.get_index(place) {
            Some((name, table)) => {
                // its opening is one of its commands
                let _turns = table.game().turns();
                write_table(alloc, name, table)
            }
            None => unreachable!(),
        }
    }
}

// A table of this name.
fn write_table(alloc: Global, name: &Name, table: &Table) -> Result<TableTranscript, Fault>
    requires { IsWritable (kept_in table.now) }
    ensures table { IfOk result (λ written. table_of written ≡ table_in_words (name.now, kept_in table.now)) }
    ensures memory { IfErr result (λ fault. fault ≡ Fault.OutOfMemory) }
{
    let words = table.commands().words();
    TableTranscript::of(alloc, name, table.stamp(), table.floor() as u32, words)
}
