//! What always holds of which snapshots a checkpoint keeps. The function does nothing: a caller's proof cites what it
//! ensures.
ghost use Rattle.rr_checkpoint.specs.Laws as laws;

/// If the snapshots of the file and the required ones both rise by table and count, one pass over both lists finds each
/// one that is there already. It stays, and only the others are laid. Those of a transcript always rise.
pub fn standing_snapshots_are_found()
    ensures rise { laws.TranscriptsRise }
    ensures found { laws.FindsAll }
    ensures kept { laws.KeepsAll }
    ensures laid { laws.LaysTheOthers }
{}
