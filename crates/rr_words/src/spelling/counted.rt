//! Rows behind their lengths.
ghost use Rattle.std.specs.Prelude.{◌≡◌, ◌≢◌, ℕ, ◌<◌, ◌≤◌, ◌++◌, List, length, take, MatchOption, OnOk};
ghost use Rattle.std.specs.List.{AllByRecursion, flat_map};
ghost use Rattle.rr_words.specs.Spelling.Form.{IsTaken};
ghost use Rattle.rr_words.specs.Spelling.Number.{spelled_number};

use crate::spelling::cursor::Cursor;
use crate::spelling::spell::Spell;
use std::alloc::AllocError;

/// Writes how many values there are, fewer than 65,536, in two bytes, and each of them behind that.
///
/// # Errors
///
/// `AllocError`; some of the bytes may stand there then.
pub fn write_counted<T: Spell>(values: &[T], out: &mut Vec<u8>) -> Result<(), AllocError>
    requires { length values.now < 65536 }
    ensures bytes { OnOk result (out.new.items ≡ out.old.items ++ (spelled_number 2 (length values.now) ++ flat_map T.form.spelling values.now)) }
    ensures fits { OnOk result (AllByRecursion T.form.Fits values.now) }
{
    let count = values.len() as u16;
    count.write(out)?;
    for value in values {
        value.write(out)?;
    }
    Ok(())
}

/// Reads how many values there are, as many as there are slots at most, and each of them, into the first slots; gives
/// their number. The other slots stay as they are. Where there is no such row, some slots may have changed.
pub fn read_counted<T: Spell + Copy>(slots: &mut [T], cursor: &mut Cursor) -> Option<usize>
    requires { length slots.old < 65536 }
    ensures { MatchOption result
        ((values : List T) (rest : List ℕ) → length values ≤ length slots.old → AllByRecursion T.form.Fits values
        → cursor.old ≢ (spelled_number 2 (length values) ++ flat_map T.form.spelling values) ++ rest)
        (λ count. IsTaken slots.old count slots.new × AllByRecursion T.form.Fits (take count slots.new)
        × (cursor.old ≡ (spelled_number 2 count ++ flat_map T.form.spelling (take count slots.new)) ++ cursor.new)) }
{
    let count = usize::from(u16::read(cursor)?);
    if slots.len() < count {
        return None;
    }
    for index in 0..count {
        slots[index] = T::read(cursor)?;
    }
    Some(count)
}
