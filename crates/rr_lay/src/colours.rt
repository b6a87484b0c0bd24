//! The colours that are open.
ghost use Rattle.std.specs.Prelude.{◌≡◌};
ghost use Rattle.rr_lay.specs.Phase.{is_open};

use rr_roster::Kind;
use rr_tiles::Colour;

// Whether tiles of the colour may be laid in the phase.
pub(crate) fn is_open(phase: Kind, colour: Colour) -> bool
    ensures { result ≡ is_open phase colour }
{
    match colour {
        Colour::Yellow => true,
        Colour::Green => Kind::Three.index() <= phase.index(),
        Colour::Brown => Kind::Five.index() <= phase.index(),
    }
}
