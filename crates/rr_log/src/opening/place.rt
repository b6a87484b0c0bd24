// Where records go on.
ghost use Rattle.std.specs.Prelude.{◌≡◌, ◌<◌, ◌≤◌, ◌^◌, not, length};
ghost use Rattle.rr_pages.specs.Journal.Reading.{lines};
ghost use Rattle.rr_pages.specs.Journal.Run.{slots_of};
ghost use Rattle.rr_pages.specs.declared.journal.layout.TheConstants.{LAST_SLOT};
ghost use Rattle.rr_log.specs.Opening.Place.{GoesBehind};
ghost use Rattle.rr_pages.specs.Journal.Layout.{other_half};
ghost use Rattle.rr_reading.specs.Held.{GoesOn};

use rr_checkpoint::Place;
use rr_pages::Root;
use rr_pages::journal::Scanned;

// The number of a first record is below this one.
const FIRST_END: u64 = 1 << 63;

// Where the next record goes: behind those of the half that the root doesn't name, where it has some, and else behind
// those of the half that it names.
pub(crate) fn next_place(root: &Root, near: &Scanned, far: &Scanned) -> Place
    requires near { GoesOn root.now.half near.now }
    requires far { GoesOn (other_half root.now.half) far.now }
    ensures { root.now.first < 2 ^ 63
        → GoesBehind root.now (lines near.now.records.items) (lines far.now.records.items) result }
{
    let behind_near = first_number(root.first) + count(near);
    if far.records.is_empty() {
        return Place {
            half: near.half,
            number: behind_near,
            begun: None,
        };
    }
    Place {
        half: far.half,
        number: behind_near + count(far),
        begun: Some(behind_near),
    }
}

// The number of the first record behind a root. That of one that is taken is below 2^63.
fn first_number(first: u64) -> u64
    ensures low { result < 2 ^ 63 }
    ensures same { first < 2 ^ 63 → result ≡ first }
{
    first.min(FIRST_END - 1)
}

// How many records were read of a half: each takes a slot at least.
fn count(scanned: &Scanned) -> u64
    requires { scanned.now.half.next_slot ≡ slots_of (lines scanned.now.records.items) }
    ensures same { result ≡ length (lines scanned.now.records.items) }
    ensures few { result ≤ LAST_SLOT }
{
    (scanned.records.len() as u64).min(u64::from(scanned.half.next_slot))
}
