//! A table's game at an earlier count of its commands, as bytes.
ghost use Rattle.std.specs.Prelude.{◌≡◌, ◌↔◌, ℕ, None, Some, IfOk, IfSome, IsOkUnless, IsTrue, MatchOption, map, slice_get};
ghost use Rattle.std.specs.Option.{option_copied};
ghost use Rattle.std.specs.Rc.{rc_slice_items};
ghost use Rattle.rr_game.specs.History.GameBytes.{SpellsGame, SpellsOneGame, bytes_of, one_game};
ghost use Rattle.rr_game.specs.History.Snapshots.{IsNearest, is_named, is_nearer, least_named, named_counts, nearer, snapshot_due};
ghost use Rattle.rr_game.specs.declared.game.Game.{Game as AnyGame};
ghost use Rattle.rr_game.specs.declared.history.fault.Fault.TheVariants.{OutOfMemory};

use crate::Game;
use crate::history::fault::Fault;
use crate::parts::Parts;
use rr_words::spelling::Spell;
use std::alloc::Global;
use std::marker::Model;
use std::rc::RcSlice;

/// So many commands stand between two snapshots of a table.
pub const SNAPSHOT_SPACING: usize = 64;

// A usual game has fewer bytes. A longer one has its buffer grow.
const USUAL_BYTES: usize = 2048;

/// A game as the bytes of its plain values, which take less memory than the game. Who writes them to a file shares them.
#[derive(Drop)]
pub struct Snapshot {
    bytes: RcSlice<u8>,
    played: u32,
    ghost spelled: { SpellsOneGame (rc_slice_items bytes) played } by { one_game (rc_slice_items bytes) played },
}

impl Model for Snapshot {
    ghost use Rattle.rr_game.specs.declared.game.Game.{Game};

    ghost Value = { Game };

    ghost view = { λ s. s.spelled.0 };
}

impl Snapshot {
    /// The game that these bytes spell, as a snapshot, which shares them, if they spell one that can stand. It isn't asked
    /// whether commands come to it.
    ///
    /// # Errors
    ///
    /// `OutOfMemory`.
    pub fn read(bytes: &RcSlice<u8>) -> Result<Option<Snapshot>, Fault>
        ensures value { IfOk result (λ found. MatchOption found
            ((count : ℕ) → SpellsOneGame (rc_slice_items bytes.now) count → ⊥)
            (λ snapshot. SpellsGame (rc_slice_items bytes.now) snapshot.played snapshot)) }
        ensures memory { IsOkUnless result OutOfMemory }
    {
        let parts = match Parts::read(bytes.as_slice()) {
            Some(parts) => parts,
            None => return Ok(None),
        };
        if !parts.are_sound() {
            return Ok(None);
        }
        Ok(Some(Snapshot {
            bytes: bytes.clone()?,
            played: parts.played,
        }))
    }

    /// # Errors
    ///
    /// `OutOfMemory`.
    pub(crate) fn of(alloc: Global, game: &Game) -> Result<Snapshot, Fault>
        ensures value { IfOk result (λ snapshot. snapshot ≡ game.now) }
        ensures spelled { IfOk result (λ snapshot. SpellsGame (bytes_of snapshot) snapshot.played snapshot) }
        ensures memory { IsOkUnless result OutOfMemory }
    {
        let mut bytes = Vec::with_capacity(alloc, USUAL_BYTES)?;
        game.parts().write(&mut bytes)?;
        // A table keeps it for long: what a write took beyond its bytes goes back.
        bytes.shrink_to_fit();
        Ok(Snapshot {
            bytes: RcSlice::from_vec(bytes)?,
            played: game.played(),
        })
    }

    /// The snapshot of a game, if one is due.
    ///
    /// # Errors
    ///
    /// `OutOfMemory`.
    pub(crate) fn if_due(alloc: Global, game: &Game) -> Result<Option<Snapshot>, Fault>
        ensures value { IfOk result (λ snapshot. snapshot ≡ snapshot_due game.now) }
        ensures spelled { IfOk result (λ due. IfSome due (λ snapshot.
            SpellsGame (bytes_of snapshot) snapshot.played snapshot)) }
        ensures memory { IsOkUnless result OutOfMemory }
    {
        if game.played() as usize % SNAPSHOT_SPACING != 0 {
            return Ok(None);
        }
        Ok(Some(Snapshot::of(alloc, game)?))
    }

    /// The game again.
    ///
    /// # Errors
    ///
    /// `OutOfMemory`.
    pub fn game(&self, alloc: Global) -> Result<Game, Fault>
        ensures value { IfOk result (λ game. game ≡ self.now) }
        ensures memory { IsOkUnless result OutOfMemory }
    {
        let parts = match Parts::read(self.bytes.as_slice()) {
            Some(parts) => parts,
            None => unreachable!(),
        };
        match Game::from_parts(alloc, &parts)? {
            Some(game) => Ok(game),
            None => unreachable!(),
        }
    }

    /// The bytes of the game's plain values.
    pub fn bytes(&self) -> &[u8]
        ensures value { result.now ≡ bytes_of self.now }
        ensures spelled { SpellsGame result.now self.now.played self.now }
    {
        self.bytes.as_slice()
    }

    /// The same bytes, to be shared.
    pub fn shared(&self) -> &RcSlice<u8>
        ensures { rc_slice_items result.now ≡ bytes_of self.now }
    {
        &self.bytes
    }

    /// How many commands the game has played, the opening among them.
    pub fn played(&self) -> usize
        ensures { result ≡ self.now.played }
    {
        self.played as usize
    }
}

/// The greatest count of which there may be a snapshot that isn't above this one.
pub(crate) fn least_named(count: usize) -> usize
    ensures { result ≡ least_named count }
{
    count / SNAPSHOT_SPACING * SNAPSHOT_SPACING
}

/// The snapshot with the greatest count up to this one, if there is one.
pub(crate) fn nearest(snapshots: &[Snapshot], count: usize) -> Option<&Snapshot>
    ensures { IsNearest count snapshots.now (option_copied result) }
{
    let mut nearest = None;
    for snapshot in snapshots {
        nearest = nearer(snapshot, nearest, count);
    }
    nearest
}

// The snapshot where it is nearer than the other, and else the other.
fn nearer<'a>(
    snapshot: &'a Snapshot,
    other: Option<&'a Snapshot>,
    count: usize,
) -> Option<&'a Snapshot>
    ensures { option_copied result ≡ nearer snapshot.now (option_copied other.entry) count }
{
    if is_nearer(snapshot, other, count) {
        return Some(snapshot);
    }
    other
}

// Whether a snapshot isn't above the count, and nearer to it than the other.
fn is_nearer(snapshot: &Snapshot, other: Option<&Snapshot>, count: usize) -> bool
    ensures { result ≡ is_nearer snapshot.now (option_copied other.entry) count }
{
    match other {
        Some(other) => snapshot.played() <= count && other.played() < snapshot.played(),
        None => snapshot.played() <= count,
    }
}

/// Whether the snapshots are those of just these counts: of the multiples of `SNAPSHOT_SPACING` from `least` to `count`.
pub(crate) fn are_named(snapshots: &[Snapshot], least: usize, count: usize) -> bool
    ensures { IsTrue result ↔ (map (λ (game : AnyGame). game.played) snapshots.now ≡ named_counts least count) }
{
    let mut next = 0;
    for place in 0..count {
        if !is_named(least, place + 1) {
            continue;
        }
        if !is_at(snapshots, next, place + 1) {
            return false;
        }
        next += 1;
    }
    next == snapshots.len()
}

// Whether a snapshot of so many commands is kept where those of fewer than `least` aren't.
fn is_named(least: usize, count: usize) -> bool
    ensures { result ≡ is_named least count }
{
    count % SNAPSHOT_SPACING == 0 && least <= count
}

// Whether the snapshot at this place is of so many commands.
fn is_at(snapshots: &[Snapshot], place: usize, count: usize) -> bool
    ensures { IsTrue result ↔ (slice_get (map (λ (game : AnyGame). game.played) snapshots.now) place ≡ Some count) }
{
    match snapshots.get(place) {
        Some(snapshot) => snapshot.played() == count,
        None => false,
    }
}
