/// Where links meet. Each is named by its place among the hexsides, or among the centres, of the net.
#[derive(Clone, Copy, Debug, PartialEq, Eq)]
pub enum Node {
    /// A side of a hex: the edge of one hex and the edge that it faces are one.
    Hexside(usize),
    /// A city, a town or an off-board area.
    Centre(usize),
}

/// One link: a track joins two hexsides of its hex, a centre's link one hexside and the centre.
#[derive(Clone, Copy, Debug, PartialEq, Eq)]
pub struct Link {
    /// The hex that it lies in, by its place on the board.
    pub hex: usize,
    /// The hexside at one end of it.
    pub side: usize,
    /// The node at its other end.
    pub other: Node,
}

/// How many centres the route of a train may count.
#[derive(Clone, Copy, Debug, PartialEq, Eq)]
pub enum CentreLimit {
    /// So many at most, as a 2, 3, 4, 5 or 6 counts.
    AtMost(usize),
    /// Any number, as a D counts.
    Unlimited,
}
