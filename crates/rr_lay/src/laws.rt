//! Laws of the definitions, each the contract of a function that does nothing.
ghost use Rattle.rr_lay.specs.JudgingLaws.{OneLayVerdict, OneStationVerdict};

/// A tile has one verdict.
pub fn one_verdict_on_a_tile()
    ensures { OneLayVerdict }
{}

/// A token has one verdict.
pub fn one_verdict_on_a_token()
    ensures { OneStationVerdict }
{}
