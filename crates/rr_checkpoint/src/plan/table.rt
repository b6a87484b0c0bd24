ghost use Rattle.std.specs.Prelude.{◌≡◌, ◌^◌, ◌<◌, ◌≤◌, IfOk, IsOkUnless};
ghost use Rattle.std.proofs.Props.{props};
ghost use Rattle.rr_reading.specs.declared.dir.directory.TheConstants.{MOST_KEPT};
ghost use Rattle.rr_turns.specs.declared.limits.TheConstants.{LAST_STAMP};
ghost use Rattle.rr_reading.specs.Dir.Kept.{SpellsKept, first_commands};
ghost use Rattle.rr_words.specs.Name.{IsTableName};

use rr_pages::Fault;
use rr_turns::KeptWords;
use rr_words::Name;
use std::alloc::Global;

/// A table as it stands at a moment: its name, its stamp, its floor, and its kept commands as its chain holds them.
#[derive(Drop)]
pub struct TableTranscript {
    pub(crate) name: Name,
    pub(crate) stamp: u64,
    pub(crate) floor: u32,
    pub(crate) kept: u32,
    pub(crate) bytes: Vec<u8>,
    ghost named: { IsTableName name },
    ghost stamped: { stamp ≤ LAST_STAMP },
    ghost floored: { floor < 2 ^ 32 },
    ghost few_kept: { kept ≤ MOST_KEPT },
    ghost spelled: { SpellsKept bytes.items (first_commands kept bytes.items) } by { Prim.hlevel props },
}

impl TableTranscript {
    ghost use Rattle.rr_checkpoint.specs.Plan.Transcript.{table_of, table_with};

    /// The table of this name, stamp and floor that keeps these commands. The stamp is at most 4,000,000,000.
    ///
    /// # Errors
    /// `OutOfMemory`.
    pub fn of(
        alloc: Global,
        name: &Name,
        stamp: u64,
        floor: u32,
        commands: &KeptWords,
    ) -> Result<TableTranscript, Fault>
        requires { stamp ≤ LAST_STAMP }
        ensures table { IfOk result (λ table. table_of table ≡ table_with name.now stamp floor commands.now.commands) }
        ensures memory { IsOkUnless result Fault.OutOfMemory }
    {
        // Its contract says that it is a table's name.
        let _ = name.as_bytes();
        Ok(TableTranscript {
            name: *name,
            stamp,
            floor,
            kept: commands.len() as u32,
            bytes: commands.as_bytes().to_vec(alloc)?,
        })
    }
}
