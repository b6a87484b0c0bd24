//! Companies by their names.
ghost use Rattle.std.specs.Prelude.{◌≡◌, IfSome};
ghost use Rattle.rr_orders.specs.Scan.Company.{corp_of, private_of};
ghost use Rattle.rr_roster.specs.Company.{corp_name, private_name};

use rr_roster::{Corp, Private};

/// The corporation that a word names, as `PRR`; `None` where it names none.
pub fn read_corp(word: &[u8]) -> Option<Corp>
    ensures exact { result ≡ corp_of word.now }
    ensures found { IfSome result (λ corp. word.now ≡ corp_name corp) }
{
    Corp::from_name(word)
}

/// The private company that a word names, as `SV`; `None` where it names none.
pub fn read_private(word: &[u8]) -> Option<Private>
    ensures exact { result ≡ private_of word.now }
    ensures found { IfSome result (λ private. word.now ≡ private_name private) }
{
    Private::from_name(word)
}
