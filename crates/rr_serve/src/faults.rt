use thiserror::Error;

/// Why serving ended before the end of the input.
#[derive(Clone, Copy, PartialEq, Eq, Debug, Drop, Error)]
pub enum Fault {
    /// A reply said that the machine's device failed.
    #[error("device failed")]
    DeviceFailed,
    /// The reader or the writer failed.
    #[error("stream failed")]
    StreamFailed,
}
