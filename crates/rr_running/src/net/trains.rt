//! How many centres trains count.
ghost use Rattle.std.specs.Prelude.{◌≡◌, map, IfOk};
ghost use Rattle.rr_referee.specs.Sheets.{limit_of_kind};

use rr_referee::limit_of_kind;
use rr_roster::Kind;
use rr_routes::CentreLimit;
use std::alloc::{AllocError, Global};

pub(crate) fn centre_limits(alloc: Global, trains: &[Kind]) -> Result<Vec<CentreLimit>, AllocError>
    ensures { IfOk result (λ limits. limits.items ≡ map limit_of_kind trains.now) }
{
    trains
        .iter()
        .map(|kind| limit_of_kind(*kind))
        .collect(alloc)
}
