//! Laws of the definitions, each the contract of a function that does nothing.
ghost use Rattle.rr_entries.specs.WorkedWords.{WorkedEntries, WorkedSeparators, WorkedSilence};

/// Each kind of entry that has words, with each kind of party, place and certificate.
pub fn worked_entries()
    ensures { WorkedEntries }
{}

/// A step and a payment of 0 have no words.
pub fn worked_silence()
    ensures { WorkedSilence }
{}

/// A separator stands between each two entries that have words, and nowhere else.
pub fn worked_separators()
    ensures { WorkedSeparators }
{}
