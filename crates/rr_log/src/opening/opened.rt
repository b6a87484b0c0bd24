ghost use Rattle.std.specs.Prelude.{◌≡◌, ◌↔◌, IsTrue};

use rr_checkpoint::Writer;
use rr_checkpoint::plan::StandingSnapshot;
use rr_pages::FollowedChain;
use rr_pages::journal::{RunEnd, Scanned};
use rr_reading::KitTexts;
use rr_reading::dir::Dir;
use rr_reading::lending::Commands;

/// What an opening gives: what the file holds, and what writes to it.
#[derive(Drop)]
pub struct Opened<C> {
    /// It has the root that is taken, the pages that this reaches, and where the next record goes. It is of use only
    /// where the file is one of ours: no record is damaged, and what the file holds spells a world.
    pub writer: Writer<C>,
    pub dir: Dir,
    /// The directory's chain, whose bytes aren't kept.
    pub directory: FollowedChain,
    pub texts: KitTexts,
    /// The kept commands in the chain of each table, in the order of the directory: as many as that says.
    pub tables: Commands,
    /// The snapshots and where they stand, in the order of the directory. Whether they show games isn't judged.
    pub snapshots: Vec<StandingSnapshot>,
    /// The records in the half that the root names, and why they end.
    pub near: Scanned,
    /// Those in the other half, numbered on.
    pub far: Scanned,
}

impl<C> Opened<C> {
    ghost use Rattle.std.specs.Prelude.{◌↔◌, IsTrue};
    ghost use Rattle.rr_log.specs.Opening.Opened.{TellsDamagedRecord};

    /// Whether the records of a half end in one that is damaged: it has the expected number, and a length that no
    /// record there may have. Then the file stands for nothing, and is damaged by clause 8, where texts that are
    /// refused and commands that aren't lawful, the records' own before it included, don't come before that.
    pub fn is_damaged(&self) -> bool
        ensures { IsTrue result ↔ TellsDamagedRecord self.now }
    {
        if is_damage(self.near.end) {
            return true;
        }
        is_damage(self.far.end)
    }
}

fn is_damage(end: RunEnd) -> bool
    ensures { IsTrue result ↔ (end ≡ RunEnd.Damaged) }
{
    match end {
        RunEnd::Closed | RunEnd::OtherNumber => false,
        RunEnd::Damaged => true,
    }
}
