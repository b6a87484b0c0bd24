use std::rc::RcSlice;

/// A snapshot of a game: the place of its table among those of the transcript, how many of that table's kept commands
/// were played, and the bytes that show the game. They are shared with whoever else holds the snapshot.
#[derive(Drop)]
pub struct SnapshotTranscript {
    pub table: u16,
    pub kept: u32,
    pub bytes: RcSlice<u8>,
}
