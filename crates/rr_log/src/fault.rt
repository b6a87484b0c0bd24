use thiserror::Error;

/// Why a call is refused.
#[derive(Clone, Copy, Debug, Drop, PartialEq, Eq, Error)]
pub enum Fault {
    /// A device call failed. What the file holds is known again once it is opened.
    #[error("device failed")]
    DeviceFailed,
    /// The half of the journal in use has no room for the record.
    #[error("half full")]
    HalfFull,
    /// Fewer pages are free than a checkpoint needs, or a number would be past the last.
    #[error("file full")]
    FileFull,
    /// A device call failed before: the file has to be opened again.
    #[error("open again")]
    OpenAgain,
    /// A request for memory was refused.
    #[error("out of memory")]
    OutOfMemory,
}
