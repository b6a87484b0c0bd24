//! Rows of values, one behind the other.
ghost use Rattle.rr_words.specs.Spelling.Form.{row_form};

use crate::spelling::cursor::Cursor;
use crate::spelling::spell::Spell;
use std::alloc::AllocError;

impl<T: Spell + Copy + Default, const N: usize> Spell for [T; N] {
    ghost form = { row_form N T.form };

    fn write(&self, out: &mut Vec<u8>) -> Result<(), AllocError> {
        for value in self {
            value.write(out)?;
        }
        Ok(())
    }

    fn read(cursor: &mut Cursor) -> Option<[T; N]> {
        let mut row = [T::default(); N];
        for slot in row.iter_mut() {
            *slot = T::read(cursor)?;
        }
        Some(row)
    }
}
