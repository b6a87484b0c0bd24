/// A call that changed what a disk in memory holds.
#[derive(Clone, Copy, Debug)]
pub enum Call {
    Write { at: u64, len: usize },
    Sync,
}
