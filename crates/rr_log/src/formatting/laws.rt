//! What the definitions say of every new file. The calls do nothing.
ghost use Rattle.rr_log.specs.Formatting.Formatted.{NewFilesStand};

use rr_reading::worlds::Rules;

/// There is a file of which a new file's bytes are the whole, and it keeps the world of its texts.
pub fn new_files_stand<R: Rules>()
    ensures { NewFilesStand R.rules }
{}
