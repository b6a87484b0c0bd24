ghost use Rattle.std.specs.Prelude.{◌≡◌, [], ◌++◌, IfOk, OnOk, OnErr, IfErr};
ghost use Rattle.rr_books.specs.Book.{Book};
ghost use Rattle.rr_desk.specs.Effects.{adds};
ghost use Rattle.rr_desk.specs.Position.Position.{Fits, IsPositionOf};
ghost use Rattle.rr_desk.specs.Desk.{Holds, Takes};

use crate::entries::Entries;
use crate::position::Position;
use rr_books::{Books, Entry, Refusal};
use std::alloc::{AllocError, Global};
use std::marker::Model;

/// A working copy of a table's position, and the entries of the command under way.
#[derive(Debug, Drop)]
pub struct Desk {
    // In a box: the one copy of a position that a command makes.
    position: Box<Position>,
    entries: Entries,
}

impl Model for Desk {
    ghost use Rattle.rr_desk.specs.Desk.{OnDesk};

    ghost Value = { OnDesk };

    ghost view = { λ d. record { position = d.position.value; entries = d.entries } };
}

impl Desk {
    /// A desk with a copy of this position and no entry yet.
    ///
    /// # Errors
    ///
    /// `AllocError` where there is no memory for the copy.
    pub fn new(alloc: Global, position: &Position) -> Result<Desk, AllocError>
        ensures position { IfOk result (λ desk. desk.position ≡ position.now) }
        ensures entries { IfOk result (λ desk. desk.entries ≡ []) }
        ensures holds { IfOk result (λ desk. (book : Book) → IsPositionOf book position.now → Holds book desk) }
    {
        Ok(Desk {
            position: Box::new(alloc, *position)?,
            entries: Entries::new(alloc),
        })
    }

    /// The position with the entries so far.
    pub fn position(&self) -> &Position
        ensures { result.now ≡ self.now.position }
    {
        &self.position
    }

    /// The books with the entries so far.
    pub fn books(&self) -> &Books
        ensures { result.now ≡ self.now.position.books }
    {
        self.position.books()
    }

    /// The entries so far.
    pub fn entries(&self) -> &Entries
        ensures { result.now ≡ self.now.entries }
    {
        &self.entries
    }

    /// Adds an entry, which the position follows: the one way in which a desk changes.
    ///
    /// # Errors
    ///
    /// `OutOfMemory`, also where the position follows no more entries; the desk is as before then.
    #[tactic(auto, using(crate::proofs::Taking::takes_entry))]
    pub fn push(&mut self, entry: Entry) -> Result<(), Refusal>
        requires { Fits self.old.position entry }
        ensures fault { IfErr result (λ fault. fault ≡ Refusal.OutOfMemory) }
        ensures takes { OnOk result (Takes (adds entry) self.old self.new) }
        ensures err { OnErr result (self.new ≡ self.old) }
    {
        // The room comes first: then nothing fails behind the position's step, and no position is copied.
        self.entries.entries.reserve(1)?;
        self.position.follow(&entry)?;
        self.entries.entries.push(entry).unwrap();
        Ok(())
    }

    /// The position and the entries, once the command is worked out.
    pub fn into_parts(self) -> (Box<Position>, Entries)
        ensures position { result.0.value ≡ self.position }
        ensures entries { result.1 ≡ self.entries }
    {
        (self.position, self.entries)
    }
}
