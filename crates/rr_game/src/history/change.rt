ghost use Rattle.std.specs.Prelude.{◌≡◌};

use crate::Game;
use crate::history::snapshots::Snapshot;
use crate::history::spelled::Spelled;

/// What a request makes of its table, worked out beforehand: nothing refuses it any more, nor want of memory once the
/// table has room for it.
#[derive(Drop)]
pub struct Change {
    /// How many of the kept commands stay.
    pub(crate) stay: usize,
    /// The least count of which a snapshot stays, if there is one; none stays of more commands than stay.
    pub(crate) least: usize,
    /// The command that is kept behind them.
    pub(crate) added: Option<Spelled>,
    /// The snapshot that is kept of the game behind it.
    pub(crate) snapshot: Option<Snapshot>,
    /// The play of the commands that are kept then, unless the request leaves the game as it is.
    pub(crate) game: Option<Game>,
    pub(crate) floor: u64,
    pub(crate) plays: usize,
}

impl Change {
    /// How many commands were played to work it out: the one that is added, or those that lead from the nearest
    /// snapshot, or from the opening, to the turn to which the table is taken back. To forget turns plays none.
    pub fn plays(&self) -> usize
        ensures { result ≡ self.now.plays }
    {
        self.plays
    }
}
