ghost use Rattle.std.specs.Prelude.{◌≡◌, ◌≢◌, ℕ, ◌++◌, List, MatchOption, OnOk};
ghost use Rattle.rr_words.specs.Spelling.Form.{Form};

use crate::spelling::cursor::Cursor;
use std::alloc::AllocError;

/// A value that bytes spell in one way.
pub trait Spell: Sized {
    /// The form of its bytes.
    ghost form: { Form Self };

    /// Writes its bytes behind those that are there.
    ///
    /// # Errors
    ///
    /// `AllocError`; some of the bytes may stand there then.
    fn write(&self, out: &mut Vec<u8>) -> Result<(), AllocError>
        ensures bytes { OnOk result (out.new.items ≡ out.old.items ++ form.spelling self.now) }
        ensures fits { OnOk result (form.Fits self.now) };

    /// Reads the value that the bytes begin with, if they begin with one. Where they begin with none, some of them may
    /// have been read.
    fn read(cursor: &mut Cursor) -> Option<Self>
        ensures { MatchOption result
            ((value : Self) (rest : List ℕ) → form.Fits value → cursor.old ≢ form.spelling value ++ rest)
            (λ value. form.Fits value × (cursor.old ≡ form.spelling value ++ cursor.new)) };
}
