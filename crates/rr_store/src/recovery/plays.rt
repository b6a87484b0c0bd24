//! What was restored, with how many commands were played for it.

/// What was restored, and how many commands were played for it: as often was a game stepped. An opening is no step.
#[derive(Drop)]
pub(crate) struct Restored<T: Drop> {
    pub(crate) value: T,
    pub(crate) plays: u64,
}
