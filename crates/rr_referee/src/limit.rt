//! How many centres a train counts.
ghost use Rattle.std.specs.Prelude.{◌≡◌};
ghost use Rattle.rr_referee.specs.Sheets.{limit_of_kind};

use rr_checker::CentreLimit;
use rr_roster::Kind;

/// How many centres a train of the kind counts: that of a number so many at most, a D any number.
pub fn limit_of_kind(kind: Kind) -> CentreLimit
    ensures { result ≡ limit_of_kind kind }
{
    match kind {
        Kind::Two => CentreLimit::AtMost(2),
        Kind::Three => CentreLimit::AtMost(3),
        Kind::Four => CentreLimit::AtMost(4),
        Kind::Five => CentreLimit::AtMost(5),
        Kind::Six => CentreLimit::AtMost(6),
        Kind::Diesel => CentreLimit::Unlimited,
    }
}
