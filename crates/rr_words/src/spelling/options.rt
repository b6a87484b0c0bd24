//! A value, or none.
ghost use Rattle.rr_words.specs.Spelling.Form.{option_form};

use crate::spelling::cursor::Cursor;
use crate::spelling::spell::Spell;
use std::alloc::AllocError;

impl<T: Spell + Drop> Spell for Option<T> {
    ghost form = { option_form T.form };

    fn write(&self, out: &mut Vec<u8>) -> Result<(), AllocError> {
        match self {
            None => out.push(0)?,
            Some(value) => {
                out.push(1)?;
                value.write(out)?;
            }
        }
        Ok(())
    }

    fn read(cursor: &mut Cursor) -> Option<Option<T>> {
        match cursor.u8()? {
            0 => Some(None),
            1 => {
                let value = T::read(cursor)?;
                Some(Some(value))
            }
            _ => None,
        }
    }
}
