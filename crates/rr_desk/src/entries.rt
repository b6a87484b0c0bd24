ghost use Rattle.std.specs.Prelude.{◌≡◌, [], ◌∷◌, ◌++◌, OnOk, IfErr};
ghost use Rattle.rr_books.specs.declared.refusal.Refusal.TheVariants.{OutOfMemory};

use rr_books::{Entry, Refusal};
use std::alloc::Global;
use std::marker::Model;

/// Entries, oldest first.
#[derive(Debug, Drop)]
pub struct Entries {
    pub(crate) entries: Vec<Entry>,
}

impl Model for Entries {
    ghost use Rattle.std.specs.Prelude.{List};
    ghost use Rattle.rr_books.specs.declared.entries.Entry.{Entry};

    ghost Value = { List Entry };

    ghost view = { λ e. e.entries.items };
}

impl Entries {
    /// No entry.
    pub fn new(alloc: Global) -> Entries
        ensures { result ≡ [] }
    {
        Entries {
            entries: Vec::new(alloc),
        }
    }

    /// Adds an entry behind the others.
    ///
    /// # Errors
    ///
    /// `OutOfMemory`; the entries are as before then.
    pub fn push(&mut self, entry: Entry) -> Result<(), Refusal>
        ensures ok { OnOk result (self.new ≡ self.old ++ entry ∷ []) }
        ensures err { IfErr result (λ fault. (fault ≡ OutOfMemory) × (self.new ≡ self.old)) }
    {
        self.entries.push(entry)?;
        Ok(())
    }

    pub fn as_slice(&self) -> &[Entry]
        ensures { result.now ≡ self.now }
    {
        self.entries.as_slice()
    }
}
