use rr_pages::{FreshPage, Root};

/// All that a checkpoint writes: the coming root, and the pages that it will reach and that don't stand in the file
/// yet.
#[derive(Drop)]
pub struct Plan {
    pub root: Root,
    pub fresh: Vec<FreshPage>,
}

// How far a checkpoint has come.
#[derive(Clone, Copy, Debug)]
pub(crate) enum Stage {
    // So many of its fresh pages are written.
    Writing(usize),
    // The stale root's gate is shut.
    Shut,
    // The coming root stands behind that gate.
    Filled,
}

// A checkpoint under way.
#[derive(Drop)]
pub(crate) struct Checkpoint {
    pub(crate) plan: Plan,
    pub(crate) stage: Stage,
}

impl Checkpoint {
    ghost use Rattle.std.specs.Prelude.{◌≡◌, length, Some};
    ghost use Rattle.rr_checkpoint.specs.Checkpoint.{begun, left_of};

    // One of which no page is written.
    pub(crate) fn new(plan: Plan) -> Checkpoint
        ensures { result ≡ begun plan }
    {
        Checkpoint {
            plan,
            stage: Stage::Writing(0),
        }
    }

    // How many steps are left.
    pub(crate) fn left(&self) -> usize
        ensures { result ≡ left_of (Some self.now) }
    {
        match self.stage {
            Stage::Writing(written) => self.plan.fresh.len().saturating_sub(written) + 3,
            Stage::Shut => 2,
            Stage::Filled => 1,
        }
    }
}
