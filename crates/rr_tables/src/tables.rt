ghost use Rattle.std.specs.Prelude.{◌≡◌, ◌+◌, ◌*◌, ◌<◌, ◌≤◌, length, List, ℕ, IfSome, None, Some, [], ◌∷◌, ◌++◌, IfOk, IfErr, MatchResult, bytes_eq, slice_get};
ghost use Rattle.std.specs.Option.{option_copied};
ghost use Rattle.std.proofs.Props.{props};
ghost use Rattle.std.proofs.lemmas.Map.Keys.{IsDistinct-prop};
ghost use Rattle.indexmap.specs.IndexMap.{IsUnique, get, index_map_len, keys, spare};
ghost use Rattle.rr_game.specs.History.Tables.{HasItsSnapshots, IsPlayed, kept_in};
ghost use Rattle.rr_tables.specs.declared.records.fault.Fault.TheVariants as R;
ghost use Rattle.rr_tables.specs.Writable.{IsWritable};
ghost use Rattle.rr_reading.specs.declared.dir.directory.TheConstants.{MOST_TABLES};

use crate::Fault;
use indexmap::IndexMap;
use rr_game::history::Table;
use rr_kit::Kit;
use rr_reading::dir::MOST_TABLES;
use rr_words::Name;
use std::alloc::Global;

/// The tables of a store, in the order of their opening: at most 64, and the kit that they are played with.
#[derive(Drop)]
pub struct Tables {
    pub(crate) kit: Kit,
    pub(crate) map: IndexMap<Name, Box<Table>>,
    ghost room: { MOST_TABLES ≤ index_map_len map + spare map },
    ghost few: { index_map_len map ≤ MOST_TABLES },
    ghost own_names: { IsUnique bytes_eq map } by { IsDistinct-prop bytes_eq (keys map) },
    ghost writable: { (name : List ℕ) → IfSome (get bytes_eq map name) (λ table. IsWritable (kept_in table.value)) } by { Prim.hlevel props },
}

impl Tables {
    ghost use Rattle.rr_tables.specs.Records.World.{names, present_stamp, table_named};
    ghost use Rattle.rr_tables.specs.Tables.{ArePlayed, HaveTheirSnapshots, kept_in_box, world_of};

    /// No table, with room for as many as there may be.
    ///
    /// # Errors
    /// `OutOfMemory`, as a fault of the rules.
    pub fn new(alloc: Global, kit: Kit) -> Result<Tables, Fault>
        ensures kit { IfOk result (λ tables. tables.kit ≡ kit) }
        ensures empty { IfOk result (λ tables. world_of tables ≡ []) }
        ensures played { IfOk result ArePlayed }
        ensures snapshots { IfOk result HaveTheirSnapshots }
        ensures memory { IfErr result (λ fault. fault ≡ Fault.Rules R.OutOfMemory) }
    {
        Ok(Tables {
            kit,
            map: IndexMap::with_capacity(alloc, MOST_TABLES)?,
        })
    }

    /// What the tables are played with.
    pub fn kit(&self) -> &Kit
        ensures { result.now ≡ self.now.kit }
    {
        &self.kit
    }

    /// How many tables there are.
    pub fn count(&self) -> usize
        ensures value { result ≡ length (world_of self.now) }
        ensures few { result ≤ MOST_TABLES }
    {
        self.map.len()
    }

    /// The name of the table at a place in the order of opening, from 0, if there is one.
    pub fn name(&self, place: usize) -> Option<&Name>
        ensures { option_copied result ≡ slice_get (names (world_of self.now)) place }
    {
        match self.map.get_index(place) {
            Some((name, _)) => Some(name),
            None => None,
        }
    }

    /// The table of this name.
    ///
    /// # Errors
    /// `NoSuchTable`, as a fault of the rules.
    pub fn table(&self, name: &Name) -> Result<&Table, Fault>
        ensures value { MatchResult result
            (λ table. table_named (world_of self.now) name.now ≡ Some (kept_in table.now))
            (λ fault. (fault ≡ Fault.Rules R.NoSuchTable) × (table_named (world_of self.now) name.now ≡ None)) }
        ensures played { IfOk result (λ table. ArePlayed self.now → IsPlayed self.now.kit table.now) }
    {
        match self.map.get(name) {
            Some(table) => Ok(&**table),
            None => Err(Fault::Rules(crate::records::Fault::NoSuchTable)),
        }
    }

    /// The stamp that the next request to the table of this name has to have: 0 without such a table.
    pub fn stamp(&self, name: &Name) -> u64
        ensures { result ≡ present_stamp (table_named (world_of self.now) name.now) }
    {
        match self.map.get(name) {
            Some(table) => table.stamp(),
            None => 0,
        }
    }

    /// Puts a table that a file tells behind the others, under a name of its own. A checkpoint can write it: its floor
    /// is below 2^32.
    pub fn put(&mut self, name: Name, table: Box<Table>)
        requires few { length (world_of self.old) < MOST_TABLES }
        requires own_name { table_named (world_of self.old) name ≡ None }
        requires writable { IsWritable (kept_in table.value) }
        ensures last { world_of self.new ≡ world_of self.old ++ (name, kept_in_box table) ∷ [] }
        ensures played { ArePlayed self.old → IsPlayed self.old.kit table.value → ArePlayed self.new }
        ensures snapshots { HaveTheirSnapshots self.old → HasItsSnapshots table.value → HaveTheirSnapshots self.new }
        ensures kit { self.new.kit ≡ self.old.kit }
    {
        self.add(name, table);
    }

    // Puts a table behind the others.
    pub(crate) fn add(&mut self, name: Name, table: Box<Table>)
        requires few { index_map_len self.old.map < MOST_TABLES }
        requires absent { get bytes_eq self.old.map name ≡ None }
        requires writable { IsWritable (kept_in table.value) }
        ensures last { self.new.map.entries ≡ self.old.map.entries ++ (name, table) ∷ [] }
        ensures played { ArePlayed self.old → IsPlayed self.old.kit table.value → ArePlayed self.new }
        ensures snapshots { HaveTheirSnapshots self.old → HasItsSnapshots table.value → HaveTheirSnapshots self.new }
        ensures kit { self.new.kit ≡ self.old.kit }
    {
        self.map.insert(name, table).unwrap();
    }
}
