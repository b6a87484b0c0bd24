//! The kinds of the trains of a net.
ghost use Rattle.std.specs.Prelude.{◌≡◌, ◌<◌, IfOk, MatchOption, length};
ghost use Rattle.rr_roster.specs.declared.company.Kind.{Kind as KindOfTrain};
ghost use Rattle.rr_routes.specs.Net.{limit_of};
ghost use Rattle.rr_referee.specs.Sheets.{limit_of_kind};
ghost use Rattle.rr_search.specs.Found.{AreKinds, HasNoSheet};

use rr_checker::{CentreLimit, Net};
use rr_roster::Kind;
use std::alloc::{AllocError, Global};

// The kinds of the net's trains; none where a train is of no kind, and so no sheet is legal.
pub(crate) fn kinds_of(alloc: Global, net: &Net) -> Result<Option<Vec<Kind>>, AllocError>
    ensures { IfOk result (λ found. MatchOption found (HasNoSheet net.now) (λ kinds. AreKinds net.now kinds.items)) }
{
    let mut kinds = Vec::new(alloc);
    for (train, limit) in net.trains().iter().enumerate() {
        match kind_at(net, train, limit) {
            None => return Ok(None),
            Some(kind) => kinds.push(kind)?,
        }
    }
    Ok(Some(kinds))
}

// The kind of the train at that place.
fn kind_at(net: &Net, train: usize, limit: &CentreLimit) -> Option<Kind>
    requires inside { train < length net.now.trains }
    requires of { limit.now ≡ limit_of net.now train }
    ensures { MatchOption result (HasNoSheet net.now) (λ kind. limit_of_kind kind ≡ limit_of net.now train) }
{
    let _trains = net.trains();
    kind_of(limit)
}

// The kind of train that counts so many centres.
fn kind_of(limit: &CentreLimit) -> Option<Kind>
    ensures { MatchOption result ((kind : KindOfTrain) → limit_of_kind kind ≡ limit.now → ⊥) (λ kind. limit_of_kind kind ≡ limit.now) }
{
    match limit {
        CentreLimit::AtMost(2) => Some(Kind::Two),
        CentreLimit::AtMost(3) => Some(Kind::Three),
        CentreLimit::AtMost(4) => Some(Kind::Four),
        CentreLimit::AtMost(5) => Some(Kind::Five),
        CentreLimit::AtMost(6) => Some(Kind::Six),
        CentreLimit::AtMost(_) => None,
        CentreLimit::Unlimited => Some(Kind::Diesel),
    }
}
