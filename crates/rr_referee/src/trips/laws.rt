//! A law of having a route: the contract of a function that does nothing.
ghost use Rattle.std.specs.Prelude.{◌↔◌};
ghost use Rattle.rr_routes.specs.Net.{IsWithin, Net};
ghost use Rattle.rr_routes.specs.declared.net.CentreLimit.{CentreLimit};
ghost use Rattle.rr_routes.specs.declared.net.CentreLimit.TheVariants.{AtMost};
ghost use Rattle.rr_referee.specs.Trips.Having.{HasRoute};

/// A train that counts at least two centres has a route exactly if a 2 has one: the part of a route from a token to the
/// next centre is a route of two centres.
pub fn two_centres_are_enough()
    ensures { (net : Net) (limit : CentreLimit) → IsWithin limit 2 → HasRoute net limit ↔ HasRoute net (AtMost 2) }
{}
