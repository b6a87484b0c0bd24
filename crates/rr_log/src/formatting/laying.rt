ghost use Rattle.std.specs.Prelude.{◌≡◌, ◌+◌, ◌≤◌, false, [], length, IfOk, IfErr};
ghost use Rattle.rr_reading.specs.Dir.Directory.{FitsVersion, spelling};
ghost use Rattle.rr_reading.specs.Dir.Version.{version_number};
ghost use Rattle.rr_log.specs.Formatting.Calls.{data_pages};
ghost use Rattle.rr_log.specs.Formatting.NewFile.{IsNewFile, empty_world};
ghost use Rattle.rr_reading.specs.declared.dir.directory.TheConstants.{MOST_TEXT};
ghost use Rattle.rr_pages.specs.declared.journal.layout.HalfIndex.TheVariants.{First};

use crate::formatting::kit::lay_kit;
use crate::formatting::text::lay_text;
use rr_pages::journal::HalfIndex;
use rr_pages::{FIRST_DATA, Fault, FreePages, FreshPage, ReachedPages, Root};
use rr_reading::dir::{Dir, KitChains, Version};
use rr_reading::worlds::Rules;
use std::alloc::Global;

/// What is put into a new file: its first root, and its data pages, from the first one on without a gap.
#[derive(Drop)]
pub struct NewFile {
    pub root: Root,
    pub fresh: Vec<FreshPage>,
}

/// Lays the four texts of a kit, each of 65,536 bytes at most, and a directory of this version that names them and no
/// table. In version 2 it says the roster's bank. The file has no record, and the first one will have number 1, in the
/// first half. Which lines records may have, `R` says.
///
/// # Errors
/// `OutOfMemory` alone.
pub fn new_file<R: Rules>(
    alloc: Global,
    version: Version,
    bank: Option<u64>,
    chart: &[u8],
    roster: &[u8],
    tiles: &[u8],
    board: &[u8],
) -> Result<NewFile, Fault>
    requires said { FitsVersion version bank }
    requires banked { R.rules.banks roster.now bank }
    requires short_chart { length chart.now ≤ MOST_TEXT }
    requires short_roster { length roster.now ≤ MOST_TEXT }
    requires short_tiles { length tiles.now ≤ MOST_TEXT }
    requires short_board { length board.now ≤ MOST_TEXT }
    ensures holds { IfOk result (λ file. IsNewFile R.rules file.root file.fresh.items
        (empty_world chart.now roster.now tiles.now board.now)) }
    ensures pages { IfOk result (λ file. length file.fresh.items
        ≡ data_pages chart.now roster.now tiles.now board.now) }
    ensures version { IfOk result (λ file. file.root.version ≡ version_number version) }
    ensures memory { IfErr result (λ fault. fault ≡ Fault.OutOfMemory) }
{
    let mut free = FreePages::new(alloc, ReachedPages::new(alloc)?)?;
    let mut fresh = Vec::new(alloc);
    let kit = lay_kit(alloc, &mut free, &mut fresh, chart, roster, tiles, board)?;
    let directory = directory_bytes(alloc, version, bank, kit)?;
    let chain = lay_text(alloc, &mut free, &mut fresh, &directory)?;
    Ok(NewFile {
        root: first_root(version, chain.head, fresh.len() as u64),
        fresh,
    })
}

// The bytes of a directory of this version without tables, and so without snapshots.
fn directory_bytes(
    alloc: Global,
    version: Version,
    bank: Option<u64>,
    kit: KitChains,
) -> Result<Vec<u8>, Fault>
    ensures bytes { IfOk result (λ bytes. bytes.items ≡ spelling version (record { bank = bank; kit = kit; tables = []; snapshots = [] })) }
    ensures memory { IfErr result (λ fault. fault ≡ Fault.OutOfMemory) }
{
    let dir = Dir {
        bank,
        kit,
        tables: Vec::new(alloc),
        snapshots: Vec::new(alloc),
    };
    let mut bytes = Vec::new(alloc);
    if dir.write(version, &mut bytes).is_err() {
        return Err(Fault::OutOfMemory);
    }
    Ok(bytes)
}

// The root of a file of this version with so many data pages whose directory begins on this page.
fn first_root(version: Version, directory: u64, count: u64) -> Root
    requires { count ≤ 1000 }
    ensures { result ≡ record { number = 1; directory = directory; half = First; first = 1; pages = FIRST_DATA + count; version = version_number version } }
{
    Root {
        number: 1,
        directory,
        half: HalfIndex::First,
        first: 1,
        pages: u64::from(FIRST_DATA) + count,
        version: version.number(),
    }
}
