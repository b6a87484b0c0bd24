ghost use Rattle.std.specs.Prelude.{◌≡◌, ◌++◌, ℕ, ◌<◌, ◌^◌, vec_len, IfOk, IsErrOf, OnOk, OnErr, IsOkUnless};
ghost use Rattle.rr_reading.specs.Dir.Directory.{Directory, BeginsDirectory, Spells, directory_of, spelling};

use crate::dir::fault::Fault;
use crate::dir::version::Version;
use crate::dir::{reading, writing};
use rr_turns::MOST_COMMANDS;
use rr_words::Name;
use rr_words::spelling::Cursor;
use rr_words::text::TEXT_BYTES;
use std::alloc::Global;

/// The most tables that a store holds.
pub const MOST_TABLES: usize = 64;

/// The most snapshots that a store holds.
pub const MOST_SNAPSHOTS: usize = 4_096;

/// The most bytes that a snapshot may have, twice as many as any game has.
pub const MOST_SNAPSHOT_BYTES: u32 = 16_384;

/// The most commands that a table keeps.
pub const MOST_KEPT: u32 = MOST_COMMANDS as u32;

/// The most bytes that a text of the kit may have.
pub const MOST_TEXT: u32 = TEXT_BYTES as u32;

/// Where a chain of pages stands in a file.
#[derive(Clone, Copy, Debug, PartialEq, Eq)]
pub struct ChainRef {
    /// The chain's first page.
    pub head: u64,
    /// How many bytes the chain holds.
    pub length: u32,
}

/// Where the four texts of a kit stand.
#[derive(Clone, Copy, Debug)]
pub struct KitChains {
    pub chart: ChainRef,
    pub roster: ChainRef,
    pub tiles: ChainRef,
    pub board: ChainRef,
}

/// What a directory says of a table.
#[derive(Clone, Copy, Debug)]
pub struct TableEntry {
    pub name: Name,
    /// The table's stamp, at most 4,000,000,000.
    pub stamp: u64,
    /// The least turn to which the table can be taken back.
    pub floor: u32,
    /// How many commands the table keeps, 1 to 4,096.
    pub kept: u32,
    /// Where the kept commands stand.
    pub chain: ChainRef,
}

/// What a directory says of a snapshot, the game that the first commands of a table make.
#[derive(Clone, Copy, Debug)]
pub struct SnapshotEntry {
    /// The place of its table among the tables, the first of which is 0.
    pub table: u16,
    /// How many of the table's commands were played, 1 to as many as the table keeps.
    pub kept: u32,
    /// Where the bytes of the game stand.
    pub chain: ChainRef,
}

/// A store's directory: in version 2 what the bank begins with; its kit; its tables in order of opening, 64 at most, each
/// with a name of its own; and the snapshots of their games, 4,096 at most, by table and rising.
#[derive(Debug, Drop)]
pub struct Dir {
    /// What the bank begins with, in dollars; nothing in version 1.
    pub bank: Option<u64>,
    pub kit: KitChains,
    pub tables: Vec<TableEntry>,
    pub snapshots: Vec<SnapshotEntry>,
}

impl Dir {
    /// Reads a directory in the form of this version. It may end behind its tables: then it has no snapshot. No byte may
    /// stand behind the last snapshot.
    ///
    /// # Errors
    /// `Damaged` where the bytes spell no directory, `OutOfMemory` where the tables or the snapshots find no room. That
    /// is told only behind a kit, a number of tables that may be, and a table.
    pub fn read(alloc: Global, version: Version, bytes: &[u8]) -> Result<Dir, Fault>
        ensures found { IfOk result (λ dir. Spells version bytes.now (directory_of dir)) }
        ensures damaged { IsErrOf result Fault.Damaged → (d : Directory) → Spells version bytes.now d → ⊥ }
        ensures memory { IsErrOf result Fault.OutOfMemory → BeginsDirectory version bytes.now }
    {
        let mut cursor = Cursor::of(bytes);
        match version {
            Version::One => reading::read_unbanked(alloc, &mut cursor),
            Version::Two => reading::read_banked(alloc, &mut cursor),
        }
    }

    /// Appends the directory's bytes in the form of this version, as `read` reads them.
    ///
    /// # Errors
    /// `OutOfMemory` where `out` can't grow; its bytes are then as they were.
    pub fn write(&self, version: Version, out: &mut Vec<u8>) -> Result<(), Fault>
        requires tables { vec_len self.now.tables < 2 ^ 16 }
        requires snapshots { vec_len self.now.snapshots < 2 ^ 16 }
        ensures ok { OnOk result (out.new.items ≡ out.old.items ++ spelling version (directory_of self.now)) }
        ensures err { OnErr result (out.new.items ≡ out.old.items) }
        ensures memory { IsOkUnless result Fault.OutOfMemory }
    {
        let before = out.len();
        let written = match version {
            Version::One => writing::write_rest(self, out),
            Version::Two => writing::write_banked(self, out),
        };
        if written.is_err() {
            out.truncate(before);
            return Err(Fault::OutOfMemory);
        }
        Ok(())
    }
}
