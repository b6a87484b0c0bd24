ghost use Rattle.std.specs.Prelude.{◌≡◌, IfOk, OnErr, OnOk};
ghost use Rattle.rr_routes.specs.Reachability.Index.{noted, noted_at, nothing_noted};

use crate::reachability::graph::Followers;
use std::alloc::{AllocError, Global};
use std::marker::Model;

/// Places by the keys at which they are noted. Those of one key stand in one row, and few others with them.
///
/// A key's row is its remainder by the number of rows: keys that follow one another stand apart.
#[derive(Debug, Drop)]
pub struct Index {
    rows: Vec<Followers>,
}

impl Model for Index {
    ghost use Rattle.std.specs.Prelude.{ℕ, List, ◌<◌, length};

    ghost Value = { List (List ℕ) };

    ghost view = { λ index. index.rows.items };

    ghost invariant = { λ index. 0 < length index.rows.items };
}

impl Index {
    /// An index of so many rows, or of one where that is 0, in which no place is noted. Only memory can fail.
    pub fn with_rows(alloc: Global, count: usize) -> Result<Index, AllocError>
        ensures { IfOk result (λ index. index ≡ nothing_noted count) }
    {
        let mut rows = Vec::with_capacity(alloc, count.max(1))?;
        for row in 0..count.max(1) {
            rows.push(Followers::new(alloc))?;
        }
        Ok(Index { rows })
    }

    /// Notes a place at a key, behind those that stand in its row. Only memory can fail, and then nothing is changed.
    pub fn note(&mut self, key: usize, place: usize) -> Result<(), AllocError>
        ensures ok { OnOk result (self.new ≡ noted self.old key place) }
        ensures err { OnErr result (self.new ≡ self.old) }
    {
        let row = key % self.rows.len();
        self.rows[row].push(place)?;
        Ok(())
    }

    /// The places noted at the key, among others, in the order in which they were noted.
    pub fn noted_at(&self, key: usize) -> &[usize]
        ensures { result.now ≡ noted_at self.now key }
    {
        let row = key % self.rows.len();
        self.rows[row].as_slice()
    }
}
