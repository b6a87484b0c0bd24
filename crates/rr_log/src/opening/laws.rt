//! What always holds of files with a damaged record. The function does nothing: a caller's proof cites what it ensures.
ghost use Rattle.rr_log.specs.Opening.Laws as laws;

use rr_images::Codec;

/// A file whose records end in a damaged one is refused, and so stands for nothing.
pub fn damaged_records_are_refused<C: Codec>()
    ensures { laws.DamagedRecordIsRefused C.codec }
{}
