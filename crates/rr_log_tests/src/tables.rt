//! The tables that are lent to a log, and the rules of its records.
ghost use Rattle.std.specs.Prelude.{[], ◌∷◌};
ghost use Rattle.rr_checkpoint.specs.Plan.Transcript.{table_with};

use rr_checkpoint::plan::{TableTranscript, Transcript};
use rr_log::TablesInWords;
use rr_pages::Fault;
use rr_reading::worlds::Rules;
use rr_turns::KeptWords;
use rr_words::Name;
use std::alloc::Global;
use std::test::Fail;

// Rules by which any line leads from any world to any, and no bytes show a game. They have no code.
pub(crate) struct AnyLine;

impl Rules for AnyLine {
    ghost rules = { record { takes = λ line old new. Unit {0}; shows = λ world commands bytes. ⊥; banks = λ text bank. Unit {0} } };
}

// A table of stamp 2 and floor 0 that keeps two commands.
#[derive(Drop)]
pub(crate) struct OneTable {
    name: Name,
    opening: [u8; 8],
    purchase: [u8; 5],
    // Whether it tells that memory was refused.
    is_refused: bool,
}

impl TablesInWords for OneTable {
    ghost tables = { λ lent. table_with lent.name 2 0 (lent.opening ∷ lent.purchase ∷ []) ∷ [] };

    ghost snapshots = { λ lent. [] };

    fn transcript(&self, alloc: Global) -> Result<Transcript, Fault> {
        if self.is_refused {
            return Err(Fault::OutOfMemory);
        }
        let mut commands = KeptWords::new(alloc);
        commands.reserve(self.opening.len())?;
        commands.push(&self.opening);
        commands.reserve(self.purchase.len())?;
        commands.push(&self.purchase);
        let table = TableTranscript::of(alloc, &self.name, 2, 0, &commands)?;
        let mut transcript = Transcript::new(alloc);
        transcript.push(table)?;
        Ok(transcript)
    }
}

pub(crate) fn one_table(is_refused: bool) -> Result<OneTable, Fail> {
    let name = Name::table(b"g1").ok_or("no name")?;
    Ok(OneTable {
        name,
        opening: *b"open a b",
        purchase: *b"buy a",
        is_refused,
    })
}

// What a checkpoint would write of these tables.
pub(crate) fn transcript_of(alloc: Global, tables: &OneTable) -> Result<Transcript, Fault> {
    tables.transcript(alloc)
}
