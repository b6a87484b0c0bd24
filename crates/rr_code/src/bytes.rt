//! The players of a table as bytes: how many there are, and each name behind its length.
ghost use Rattle.std.specs.Prelude.{◌≡◌, ◌≢◌, ◌≤◌, ℕ, ◌++◌, List, length, MatchOption, OnOk};
ghost use Rattle.rr_words.specs.Name.{IsPlayerName};
ghost use Rattle.rr_code.specs.Bytes.{players_form, spelled_name};

use crate::players::{MOST_PLAYERS, Players, all_different};
use rr_words::Name;
use rr_words::spelling::{Cursor, Spell};
use std::alloc::AllocError;

impl Spell for Players {
    ghost form = { players_form };

    fn write(&self, out: &mut Vec<u8>) -> Result<(), AllocError> {
        let names = self.as_slice();
        out.push(names.len() as u8)?;
        for name in names {
            write_name(name, out)?;
        }
        Ok(())
    }

    fn read(cursor: &mut Cursor) -> Option<Players> {
        let count = usize::from(cursor.u8()?);
        if count < 2 {
            return None;
        }
        if MOST_PLAYERS < count {
            return None;
        }
        let first = read_name(cursor)?;
        let mut names = [first; MOST_PLAYERS];
        for index in 1..count {
            names[index] = read_name(cursor)?;
        }
        if !all_different(&names[..count]) {
            return None;
        }
        Some(Players { names, count })
    }
}

// Writes a name behind its length.
fn write_name(name: &Name, out: &mut Vec<u8>) -> Result<(), AllocError>
    ensures { OnOk result (out.new.items ≡ out.old.items ++ spelled_name name.now) }
{
    let word = name.as_bytes();
    out.push(word.len() as u8)?;
    out.extend_from_slice(word)?;
    Ok(())
}

// Reads a player's name behind its length.
fn read_name(cursor: &mut Cursor) -> Option<Name>
    ensures { MatchOption result
        ((name : List ℕ) (rest : List ℕ) → IsPlayerName name → cursor.old ≢ spelled_name name ++ rest)
        (λ name. IsPlayerName name × (cursor.old ≡ spelled_name name ++ cursor.new)) }
{
    let count = cursor.u8()?;
    let word = cursor.bytes(usize::from(count))?;
    Name::player(word)
}
