//! What the definitions of the network say. Each call does nothing: its contract holds of all boards.
ghost use Rattle.rr_network.specs.Facing.{FaceEachOther, IsTestOfHexsides, ShareHexsides};
ghost use Rattle.rr_network.specs.Stops.{NothingLaidKeepsCentres, UpgradesKeepCentres};

/// Two edges of hexes share a hexside exactly if they are one edge, or face each other across it. So the links of
/// neighbours join at their common side, and nowhere else.
pub fn hexsides()
    ensures shared { ShareHexsides }
    ensures returned { FaceEachOther }
    ensures tested { IsTestOfHexsides }
{}

/// Each hex has as many centres as are printed on it, before anything was laid and after each tile that keeps what lies
/// on its hex.
pub fn hexes_keep_their_centres()
    ensures start { NothingLaidKeepsCentres }
    ensures next { UpgradesKeepCentres }
{}
