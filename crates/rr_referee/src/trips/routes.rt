//! Whether a corporation has a route.
ghost use Rattle.std.specs.Prelude.{IfOk};
ghost use Rattle.std.specs.Bool.{Decides};
ghost use Rattle.rr_routes.specs.Net.{IsWithin};
ghost use Rattle.rr_referee.specs.Trips.Having.{HasRoute};

use crate::trips::links::places;
use crate::trips::ways::some_leaves;
use rr_checker::{CentreLimit, Net};
use std::alloc::{AllocError, Global};

/// Whether the corporation has a route on its net for a train that counts so many centres. A corporation that owns
/// no train is asked for a 2, which counts 2: where it has a route, it must own a train. The net's own trains don't
/// matter.
///
/// That a second centre is reached isn't enough: a route goes over no hexside twice, and at each from one hex into the
/// other. So ways from the tokens are tried one by one, none further than to the next centre. Only memory can fail.
pub fn has_route(alloc: Global, net: &Net, limit: &CentreLimit) -> Result<bool, AllocError>
    ensures { IfOk result (λ found. Decides found (HasRoute net.now limit.now)) }
{
    if !counts_two(limit) {
        return Ok(false);
    }
    let own = places(alloc, net.links().len())?;
    let found = some_leaves(alloc, net, &own, net.tokens())?;
    Ok(found)
}

fn counts_two(limit: &CentreLimit) -> bool
    ensures { Decides result (IsWithin limit.now 2) }
{
    match limit {
        CentreLimit::AtMost(most) => 2 <= *most,
        CentreLimit::Unlimited => true,
    }
}
