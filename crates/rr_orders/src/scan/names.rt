//! Names among the words of a line.
ghost use Rattle.std.specs.Prelude.{◌≡◌, [], ◌∷◌, None, MatchOption};
ghost use Rattle.rr_words.specs.Name.{IsTableName, IsPlayerName};
ghost use Rattle.rr_orders.specs.Scan.Words.{next_table, only_table, next_player};

use crate::scan::words::Words;
use rr_words::Name;

/// The table that is named by the next word.
pub fn next_table(words: &mut Words) -> Option<Name>
    ensures { MatchOption result (next_table words.old ≡ None) (λ table. IsTableName table × (words.old ≡ table ∷ words.new)) }
{
    Name::table(words.next()?)
}

/// The table that is named by the only word that is left.
pub fn only_table(words: &mut Words) -> Option<Name>
    ensures { MatchOption result (only_table words.old ≡ None) (λ table. IsTableName table × (words.old ≡ table ∷ [])) }
{
    Name::table(words.last()?)
}

/// The player that is named by the next word.
pub fn next_player(words: &mut Words) -> Option<Name>
    ensures { MatchOption result (next_player words.old ≡ None) (λ player. IsPlayerName player × (words.old ≡ player ∷ words.new)) }
{
    Name::player(words.next()?)
}
