//! What the definitions of layouts say of every codec. The store that has a codec calls these functions, which do
//! nothing, or cites them in its proofs.
ghost use Rattle.rr_images.specs.Example.{IsExample};
ghost use Rattle.rr_images.specs.Laws as laws;

use crate::Codec;

/// A file with one root and two shut halves keeps the world that the root's chains spell.
pub fn formatted_files_keep<C: Codec>()
    ensures { laws.FormattedKeep C.codec }
{}

/// What a file keeps, it stands for, whatever steps of a checkpoint were made; and an opening goes on with the layout
/// that it finds.
pub fn kept_files_stand<C: Codec>()
    ensures stands { laws.KeptStands C.codec }
    ensures layout { laws.OpeningGoesOn C.codec }
    ensures between { laws.OpenedIsBetween C.codec }
    ensures goes_on { laws.GoOnOpened C.codec }
{}

/// A file stands for one world at most, and an opening reads the same of it in any way; of a file with a layout it
/// reads that.
pub fn files_stand_for_one_world<C: Codec>()
    ensures world { laws.OneWorld C.codec }
    ensures reading { laws.OneReading C.codec }
    ensures layout { laws.LayoutIsRead C.codec }
{}

/// What an opening reads of a root, chain by chain, is what the root holds.
pub fn roots_are_read<C: Codec>()
    ensures { laws.ReadIsSpelled C.codec }
{}

/// A file that is refused stands for nothing, whether it is refused for its roots, a broken chain, a directory of no
/// form, chains that spell nothing, a damaged record or an unlawful one.
pub fn refused_files_stand_for_nothing<C: Codec>()
    ensures { laws.RefusedStandsForNothing C.codec }
{}

/// A file keeps the same where it has the same bytes in the places at which its layout looks.
pub fn files_read_the_same_keep_the_same<C: Codec>()
    ensures { laws.ReadTheSame C.codec }
{}

/// The first step of a checkpoint closes the gate of the other half's slot 0, by a write only if it is open. From then
/// on records go there. If an opening found a checkpoint begun, this was done.
pub fn checkpoints_begin<C: Codec>()
    ensures begun { laws.CheckpointsBegin C.codec }
    ensures found { laws.BegunAreFound C.codec }
    ensures goes_on { laws.GoOnBegun C.codec }
{}

/// A fresh page of a plan may be written and wait for a sync: whatever a stop leaves of it, files keep their layout.
pub fn fresh_pages_are_written<C: Codec>()
    ensures { laws.PagesAreWritten C.codec }
{}

/// The stale root's gate is closed, by a write only if it is open; then the next root is written after it; then the
/// gate is opened, and that root is current. A sync follows each.
pub fn roots_change_places<C: Codec>()
    ensures shut { laws.StaleRootsAreShut C.codec }
    ensures filled { laws.RootsAreFilled C.codec }
    ensures opened { laws.RootsAreOpened C.codec }
    ensures flipped { laws.RootsAreFlipped C.codec }
    ensures goes_on_shut { laws.GoOnShut C.codec }
    ensures goes_on_flipped { laws.GoOnFlipped C.codec }
{}

/// A record is appended wherever a checkpoint is: a stop leaves the world from before it, or the one with it.
pub fn records_are_appended<C: Codec>()
    ensures appended { laws.RecordsAreAppended C.codec }
    ensures kept { laws.PartsAreKept C.codec }
{}

/// A chain begins with the first of its pages.
pub fn chains_begin_with_their_pages()
    ensures { laws.ChainsBegin }
{}

/// Chains that are laid one after another stand on pages that were free, beside those that the coming root keeps.
pub fn chains_are_laid_in_turn()
    ensures none { laws.NothingLaid }
    ensures more { laws.OneMoreLaid }
    ensures free { laws.LaidAreFree }
{}

/// Chains that were laid into free pages, a directory that names them, and chains that are kept where they stand are a
/// plan, and its next root reaches their pages.
pub fn made_plans_are_plans<C: Codec>()
    ensures plan { laws.MadeArePlans C.codec }
    ensures reaches { laws.PlansReach }
{}

/// There are a codec and a file of which the laws speak.
pub fn example()
    ensures { IsExample }
{}
