//! Numbers, high bytes first.
ghost use Rattle.rr_words.specs.Spelling.Form.{bool_form, byte_form, number_form, signed_form};

use crate::spelling::cursor::Cursor;
use crate::spelling::spell::Spell;
use byteorder::{BigEndian, ByteOrder};
use std::alloc::AllocError;

impl Spell for u8 {
    ghost form = { byte_form };

    fn write(&self, out: &mut Vec<u8>) -> Result<(), AllocError> {
        out.push(*self)?;
        Ok(())
    }

    fn read(cursor: &mut Cursor) -> Option<u8> {
        cursor.u8()
    }
}

impl Spell for u16 {
    ghost form = { number_form 2 };

    fn write(&self, out: &mut Vec<u8>) -> Result<(), AllocError> {
        let mut bytes = [0u8; 2];
        BigEndian::write_u16(&mut bytes, *self);
        out.extend_from_slice(&bytes)?;
        Ok(())
    }

    fn read(cursor: &mut Cursor) -> Option<u16> {
        cursor.u16()
    }
}

impl Spell for u32 {
    ghost form = { number_form 4 };

    fn write(&self, out: &mut Vec<u8>) -> Result<(), AllocError> {
        let mut bytes = [0u8; 4];
        BigEndian::write_u32(&mut bytes, *self);
        out.extend_from_slice(&bytes)?;
        Ok(())
    }

    fn read(cursor: &mut Cursor) -> Option<u32> {
        cursor.u32()
    }
}

impl Spell for u64 {
    ghost form = { number_form 8 };

    fn write(&self, out: &mut Vec<u8>) -> Result<(), AllocError> {
        let mut bytes = [0u8; 8];
        BigEndian::write_u64(&mut bytes, *self);
        out.extend_from_slice(&bytes)?;
        Ok(())
    }

    fn read(cursor: &mut Cursor) -> Option<u64> {
        cursor.u64()
    }
}

impl Spell for bool {
    ghost form = { bool_form };

    fn write(&self, out: &mut Vec<u8>) -> Result<(), AllocError> {
        out.push(u8::from(*self))?;
        Ok(())
    }

    fn read(cursor: &mut Cursor) -> Option<bool> {
        match cursor.u8()? {
            0 => Some(false),
            1 => Some(true),
            _ => None,
        }
    }
}

impl Spell for i64 {
    ghost form = { signed_form };

    fn write(&self, out: &mut Vec<u8>) -> Result<(), AllocError> {
        self.cast_unsigned().write(out)
    }

    fn read(cursor: &mut Cursor) -> Option<i64> {
        let bits = u64::read(cursor)?;
        Some(bits.cast_signed())
    }
}
