//! Two values, one behind the other.
ghost use Rattle.rr_words.specs.Spelling.Form.{pair_form};

use crate::spelling::cursor::Cursor;
use crate::spelling::spell::Spell;
use std::alloc::AllocError;

impl<A: Spell + Drop, B: Spell + Drop> Spell for (A, B) {
    ghost form = { pair_form A.form B.form };

    fn write(&self, out: &mut Vec<u8>) -> Result<(), AllocError> {
        self.0.write(out)?;
        self.1.write(out)?;
        Ok(())
    }

    fn read(cursor: &mut Cursor) -> Option<(A, B)> {
        let first = A::read(cursor)?;
        let second = B::read(cursor)?;
        Some((first, second))
    }
}
