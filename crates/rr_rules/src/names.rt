//! Names that the kit lacks.
ghost use Rattle.std.specs.Prelude.{◌≡◌, None, Some, MatchResult};
ghost use Rattle.rr_rules.specs.Judging.{name_verdict, refused_unless};

use rr_books::{Act, Refusal};
use rr_kit::Kit;

// Whether the board has the hex that a command names, and the manifest the tile.
pub(crate) fn judge_names(kit: &Kit, act: &Act) -> Result<(), Refusal>
    ensures { MatchResult result
        (λ _. name_verdict kit.now act.now ≡ None)
        (λ fault. name_verdict kit.now act.now ≡ Some fault) }
{
    match act {
        Act::Lay { hex, tile, .. } => {
            refuse_unless(
                kit.board().hex(hex.as_bytes()).is_some() && kit.tiles().supply(*tile).is_some(),
            )
        }
        Act::Station { hex, .. } => refuse_unless(kit.board().hex(hex.as_bytes()).is_some()),
        _ => Ok(()),
    }
}

fn refuse_unless(known: bool) -> Result<(), Refusal>
    ensures { MatchResult result
        (λ _. refused_unless known ≡ None)
        (λ fault. refused_unless known ≡ Some fault) }
{
    if !known {
        return Err(Refusal::NoSuchName);
    }
    Ok(())
}
