//! How the parts of a directory are written.
ghost use Rattle.std.specs.Prelude.{◌≡◌, ◌++◌, ◌<◌, ◌^◌, length, OnOk, vec_len};
ghost use Rattle.rr_reading.specs.Dir.Directory.{directory_of, spelling, spelled_bank, spelled_rest, spelled_chain, spelled_kit, spelled_snapshot, spelled_snapshots, spelled_table, spelled_tables};
ghost use Rattle.rr_reading.specs.Dir.Number.{Continues};
ghost use Rattle.rr_words.specs.Spelling.Number.{spelled_number};
ghost use Rattle.rr_reading.specs.declared.dir.version.Version.TheVariants.{Two};

use crate::dir::directory::{ChainRef, Dir, KitChains, SnapshotEntry, TableEntry};
use crate::dir::fault::Fault;
use byteorder::{BigEndian, ByteOrder};

// A directory of version 2: the bank, and then what both versions have.
pub(crate) fn write_banked(dir: &Dir, out: &mut Vec<u8>) -> Result<(), Fault>
    requires tables { vec_len dir.now.tables < 2 ^ 16 }
    requires snapshots { vec_len dir.now.snapshots < 2 ^ 16 }
    ensures ok { OnOk result (out.new.items ≡ out.old.items ++ spelling Two (directory_of dir.now)) }
    ensures kept { Continues out.old.items out.new.items }
{
    write_bank(dir.bank, out)?;
    write_rest(dir, out)
}

fn write_bank(bank: Option<u64>, out: &mut Vec<u8>) -> Result<(), Fault>
    ensures ok { OnOk result (out.new.items ≡ out.old.items ++ spelled_bank bank) }
    ensures kept { Continues out.old.items out.new.items }
{
    match bank {
        Some(bank) => write_u64(bank, out),
        None => Ok(()),
    }
}

pub(crate) fn write_rest(dir: &Dir, out: &mut Vec<u8>) -> Result<(), Fault>
    requires tables { vec_len dir.now.tables < 2 ^ 16 }
    requires snapshots { vec_len dir.now.snapshots < 2 ^ 16 }
    ensures ok { OnOk result (out.new.items ≡ out.old.items ++ spelled_rest (directory_of dir.now)) }
    ensures kept { Continues out.old.items out.new.items }
{
    write_kit(&dir.kit, out)?;
    write_tables(&dir.tables, out)?;
    write_snapshots(&dir.snapshots, out)
}

fn write_tables(tables: &[TableEntry], out: &mut Vec<u8>) -> Result<(), Fault>
    requires { length tables.now < 2 ^ 16 }
    ensures ok { OnOk result (out.new.items ≡ out.old.items ++ spelled_tables tables.now) }
    ensures kept { Continues out.old.items out.new.items }
{
    write_u16(tables.len() as u16, out)?;
    for table in tables {
        write_table(table, out)?;
    }
    Ok(())
}

// That there is none is told by the directory's end.
fn write_snapshots(snapshots: &[SnapshotEntry], out: &mut Vec<u8>) -> Result<(), Fault>
    requires { length snapshots.now < 2 ^ 16 }
    ensures ok { OnOk result (out.new.items ≡ out.old.items ++ spelled_snapshots snapshots.now) }
    ensures kept { Continues out.old.items out.new.items }
{
    if snapshots.is_empty() {
        return Ok(());
    }
    write_u16(snapshots.len() as u16, out)?;
    for snapshot in snapshots {
        write_snapshot(snapshot, out)?;
    }
    Ok(())
}

fn write_kit(kit: &KitChains, out: &mut Vec<u8>) -> Result<(), Fault>
    ensures ok { OnOk result (out.new.items ≡ out.old.items ++ spelled_kit kit.now) }
    ensures kept { Continues out.old.items out.new.items }
{
    write_chain(kit.chart, out)?;
    write_chain(kit.roster, out)?;
    write_chain(kit.tiles, out)?;
    write_chain(kit.board, out)?;
    Ok(())
}

fn write_table(table: &TableEntry, out: &mut Vec<u8>) -> Result<(), Fault>
    ensures ok { OnOk result (out.new.items ≡ out.old.items ++ spelled_table table.now) }
    ensures kept { Continues out.old.items out.new.items }
{
    let name = table.name.as_bytes();
    out.push(name.len() as u8)?;
    out.extend_from_slice(name)?;
    write_u64(table.stamp, out)?;
    write_u32(table.floor, out)?;
    write_u32(table.kept, out)?;
    write_chain(table.chain, out)?;
    Ok(())
}

fn write_snapshot(snapshot: &SnapshotEntry, out: &mut Vec<u8>) -> Result<(), Fault>
    ensures ok { OnOk result (out.new.items ≡ out.old.items ++ spelled_snapshot snapshot.now) }
    ensures kept { Continues out.old.items out.new.items }
{
    write_u16(snapshot.table, out)?;
    write_u32(snapshot.kept, out)?;
    write_chain(snapshot.chain, out)
}

fn write_chain(chain: ChainRef, out: &mut Vec<u8>) -> Result<(), Fault>
    ensures ok { OnOk result (out.new.items ≡ out.old.items ++ spelled_chain chain) }
    ensures kept { Continues out.old.items out.new.items }
{
    write_u64(chain.head, out)?;
    write_u32(chain.length, out)?;
    Ok(())
}

pub(crate) fn write_u16(number: u16, out: &mut Vec<u8>) -> Result<(), Fault>
    ensures ok { OnOk result (out.new.items ≡ out.old.items ++ spelled_number 2 number) }
    ensures kept { Continues out.old.items out.new.items }
{
    let mut bytes = [0u8; 2];
    BigEndian::write_u16(&mut bytes, number);
    out.extend_from_slice(&bytes)?;
    Ok(())
}

fn write_u32(number: u32, out: &mut Vec<u8>) -> Result<(), Fault>
    ensures ok { OnOk result (out.new.items ≡ out.old.items ++ spelled_number 4 number) }
    ensures kept { Continues out.old.items out.new.items }
{
    let mut bytes = [0u8; 4];
    BigEndian::write_u32(&mut bytes, number);
    out.extend_from_slice(&bytes)?;
    Ok(())
}

fn write_u64(number: u64, out: &mut Vec<u8>) -> Result<(), Fault>
    ensures ok { OnOk result (out.new.items ≡ out.old.items ++ spelled_number 8 number) }
    ensures kept { Continues out.old.items out.new.items }
{
    let mut bytes = [0u8; 8];
    BigEndian::write_u64(&mut bytes, number);
    out.extend_from_slice(&bytes)?;
    Ok(())
}
