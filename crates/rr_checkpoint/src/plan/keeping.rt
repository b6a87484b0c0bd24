// The pages of what stays where it stands: the coming root will reach them too.
ghost use Rattle.std.specs.Prelude.{◌≡◌, [], ◌∷◌, map};
ghost use Rattle.std.specs.Option.{option_copied};
ghost use Rattle.rr_images.specs.Holding.{pages_of};
ghost use Rattle.rr_checkpoint.specs.Writer.{free_of, ticks_left_of};
ghost use Rattle.rr_pages.specs.FreePages.{coming_of};
ghost use Rattle.rr_pages.specs.Sets.{all_marked, marked};
ghost use Rattle.rr_checkpoint.specs.Plan.Kit.{text_pages};
ghost use Rattle.rr_checkpoint.specs.Plan.Snapshots.{snapshot_of};
ghost use Rattle.rr_checkpoint.specs.Plan.Standing.{kept_at, kept_snapshots, left_by, standing_chains};
ghost use Rattle.rr_checkpoint.specs.Plan.Writing.{OnlyTakes};
ghost use Rattle.rr_reading.specs.Worlds.Spelling.{worlds};

use crate::Writer;
use crate::plan::standing::{first_if_same, those_behind, those_from};
use crate::plan::{KitPages, SnapshotTranscript, StandingSnapshot};
use rr_pages::MOST_PAGES;
use rr_reading::worlds::{Rules, Worlds};

// Keeps the pages of all four texts.
pub(crate) fn keep_texts<R: Rules>(writer: &mut Writer<Worlds<R>>, kit: &KitPages)
    requires { ticks_left_of writer.old ≡ 0 }
    ensures coming { coming_of (free_of writer.new) ≡ all_marked (coming_of (free_of writer.old)) (text_pages kit.now) }
    ensures only { OnlyTakes (worlds R.rules) writer.old writer.new }
{
    keep_pages(writer, &kit.chart.pages);
    keep_pages(writer, &kit.roster.pages);
    keep_pages(writer, &kit.tiles.pages);
    keep_pages(writer, &kit.board.pages);
}

// Keeps the pages of each snapshot that stands already.
pub(crate) fn keep_standing<R: Rules>(
    writer: &mut Writer<Worlds<R>>,
    standing: &[StandingSnapshot],
    snapshots: &[SnapshotTranscript],
)
    requires { ticks_left_of writer.old ≡ 0 }
    ensures coming { coming_of (free_of writer.new) ≡ all_marked (coming_of (free_of writer.old))
        (pages_of (standing_chains (kept_snapshots standing.now (map snapshot_of snapshots.now)))) }
    ensures only { OnlyTakes (worlds R.rules) writer.old writer.new }
{
    let mut rest = standing;
    for snapshot in snapshots {
        rest = keep_next(writer, rest, snapshot);
    }
}

// Keeps the pages of the snapshot, if it stands among these, and gives those that are left for the next ones.
fn keep_next<'a, R: Rules>(
    writer: &mut Writer<Worlds<R>>,
    standing: &'a [StandingSnapshot],
    snapshot: &SnapshotTranscript,
) -> &'a [StandingSnapshot]
    requires { ticks_left_of writer.old ≡ 0 }
    ensures coming { coming_of (free_of writer.new) ≡ all_marked (coming_of (free_of writer.old))
        (pages_of (standing_chains (kept_snapshots standing.now (snapshot_of snapshot.now ∷ [])))) }
    ensures only { OnlyTakes (worlds R.rules) writer.old writer.new }
    ensures left { result.now ≡ left_by standing.now (snapshot_of snapshot.now) }
{
    let rest = those_from(standing, snapshot);
    let place = first_if_same(rest, snapshot);
    keep_place(writer, place);
    those_behind(rest, place)
}

fn keep_place<R: Rules>(writer: &mut Writer<Worlds<R>>, place: Option<&StandingSnapshot>)
    requires { ticks_left_of writer.old ≡ 0 }
    ensures coming { coming_of (free_of writer.new) ≡ all_marked (coming_of (free_of writer.old))
        (pages_of (standing_chains (kept_at (option_copied place.entry ∷ [])))) }
    ensures only { OnlyTakes (worlds R.rules) writer.old writer.new }
{
    if let Some(standing) = place {
        keep_pages(writer, &standing.pages);
    }
}

fn keep_pages<R: Rules>(writer: &mut Writer<Worlds<R>>, pages: &[u32])
    requires { ticks_left_of writer.old ≡ 0 }
    ensures coming { coming_of (free_of writer.new) ≡ all_marked (coming_of (free_of writer.old)) pages.now }
    ensures only { OnlyTakes (worlds R.rules) writer.old writer.new }
{
    for page in pages {
        keep_page(writer, *page);
    }
}

// No file has a page past the last one that it may have.
fn keep_page<R: Rules>(writer: &mut Writer<Worlds<R>>, page: u32)
    requires { ticks_left_of writer.old ≡ 0 }
    ensures coming { coming_of (free_of writer.new) ≡ marked (coming_of (free_of writer.old)) page }
    ensures only { OnlyTakes (worlds R.rules) writer.old writer.new }
{
    if page < MOST_PAGES {
        writer.keep(page);
    }
}
