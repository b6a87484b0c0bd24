//! Laws of the definitions, each the contract of a function that does nothing.
ghost use Rattle.rr_trains.specs.PhaseLaws.{PhaseIsTheGreatestSold};
ghost use Rattle.rr_trains.specs.SaleLaws.{CheapestLeads};
ghost use Rattle.rr_trains.specs.WorkedTrains.{WorkedDiesel, WorkedFirstFive, WorkedFirstFour, WorkedTie};

/// No kind greater than the phase was sold, and the phase was, unless it is the 2.
pub fn phase_is_the_greatest_sold()
    ensures { PhaseIsTheGreatestSold }
{}

/// The cheapest train is on sale, and nothing that is on sale comes before it; there is none where nothing is on sale.
pub fn cheapest_leads()
    ensures { CheapestLeads }
{}

/// As the first 4 is bought all 2s leave the game, and the train limit falls to 3.
pub fn worked_first_four()
    ensures { WorkedFirstFour }
{}

/// The first 5 closes all open privates, each once.
pub fn worked_first_five()
    ensures { WorkedFirstFive }
{}

/// A D is on sale once one of the 6s was sold, and not before.
pub fn worked_diesel()
    ensures { WorkedDiesel }
{}

/// The bank's train is the cheapest of two of a kind.
pub fn worked_tie()
    ensures { WorkedTie }
{}
