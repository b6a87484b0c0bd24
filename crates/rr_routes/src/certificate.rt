/// The most nodes that a certificate may have.
pub const MOST_NODES: usize = 4096;

/// Who may run over a link, as far as a certificate has decided it.
#[derive(Clone, Copy, Debug, PartialEq, Eq)]
pub enum Fate {
    /// Not decided.
    Open,
    /// No train runs over it.
    Denied,
    /// The train of this place among the net's trains, and no other, runs over it.
    Of(usize),
}

/// A certificate that no run earns more than is claimed: a tree of the cases to look at. It names links and trains by
/// their places in the net, from 0, where its words number both from 1.
#[derive(Debug, Drop)]
pub enum CertTree {
    /// The greatest values in reach of the trains don't come to more than the claim.
    Bound,
    /// The train can't run over all the links that are its own.
    Bad(usize),
    /// Every link is decided, and the run over these links doesn't earn more than the claim.
    Full,
    /// The cases of an open link: denied to all, then of each train in turn.
    Split(usize, Vec<CertTree>),
}

impl CertTree {
    ghost use Rattle.std.specs.Prelude.{◌≡◌, ◌+◌, ◌<◌, MatchOption};
    ghost use Rattle.rr_routes.specs.Certificates.{node_count};

    /// What is left of a budget of nodes when the tree has taken its own; none where it has more of them.
    pub fn nodes_left(&self, budget: usize) -> Option<usize>
        ensures { MatchOption result (budget < node_count self.now) (λ left. left + node_count self.now ≡ budget) }
    {
        let mut left = budget.checked_sub(1)?;
        if let CertTree::Split(_, children) = self {
            for child in children {
                left = child.nodes_left(left)?;
            }
        }
        Some(left)
    }
}
