use rr_pages::journal::Half;

/// Where the next record goes.
#[derive(Clone, Copy, Debug)]
pub struct Place {
    pub half: Half,
    /// The record's number.
    pub number: u64,
    /// Where a checkpoint is begun, and records go to the half that the root doesn't name: the number of the first
    /// record there.
    pub begun: Option<u64>,
}
