ghost use Rattle.std.specs.Prelude.{◌≡◌, ◌≢◌, ℕ, List, ◌++◌, MatchOption};
ghost use Rattle.rr_reading.specs.Dir.Kept.{IsShort, spelled_command};

use rr_words::spelling::Cursor;

// The words of the command with which these bytes begin, if they begin with one.
pub(crate) fn first_command(bytes: &[u8]) -> Option<&[u8]>
    ensures { MatchOption result
        ((words rest : List ℕ) → IsShort words → bytes.now ≢ spelled_command words ++ rest)
        (λ words. IsShort words.now × ((rest : List ℕ) × (bytes.now ≡ spelled_command words.now ++ rest))) }
{
    let words = next_command(&mut Cursor::of(bytes))?;
    Some(words)
}

fn next_command<'a>(cursor: &mut Cursor<'a>) -> Option<&'a [u8]>
    ensures { MatchOption result
        ((words rest : List ℕ) → IsShort words → cursor.old ≢ spelled_command words ++ rest)
        (λ words. IsShort words.now × (cursor.old ≡ spelled_command words.now ++ cursor.new)) }
{
    let count = cursor.u16()?;
    let words = cursor.bytes(usize::from(count))?;
    Some(words)
}
