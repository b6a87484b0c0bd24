//! What the definitions of the net say. Each call does nothing: its contract holds of all boards.
ghost use Rattle.rr_running.specs.Net.Centres.{OwnCitiesAreOpen};
ghost use Rattle.rr_running.specs.Net.Reaching.{LinksAreReachedAlike, NetworksLieOnBoards, NodesAreReachedAlike, TerminalsAreAlike, TokensStandAlike};
ghost use Rattle.rr_running.specs.Net.Telling.{CentresAreToldApart, HexesAreToldApart, HexsidesAreToldApart};

/// Two ends of links have one number exactly if they are the same hexside. So the net's links join where those of the
/// network do, and nowhere else. Centres and hexes are told apart by their places, too.
pub fn hexsides_are_told_apart()
    ensures hexsides { HexsidesAreToldApart }
    ensures centres { CentresAreToldApart }
    ensures hexes { HexesAreToldApart }
{}

/// If the network lies on the board, the nodes with a token of the corporation, and those that none of its routes
/// passes, are the network's own.
pub fn nodes_are_alike()
    ensures tokens { TokensStandAlike }
    ensures terminals { TerminalsAreAlike }
{}

/// On a network that lies on the board a corporation reaches just the links and nodes that its trains reach on its
/// net while no link is decided. Each network of a board lies on it, whatever tiles and tokens were put there.
pub fn reaches_are_one()
    ensures links { LinksAreReachedAlike }
    ensures nodes { NodesAreReachedAlike }
    ensures lies { NetworksLieOnBoards }
{}

/// If no more tokens stand in a city than it has slots, its slots aren't filled for a corporation with a token there:
/// its routes pass its own cities.
pub fn own_cities_are_open()
    ensures { OwnCitiesAreOpen }
{}
