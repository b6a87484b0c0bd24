//! What the definitions of schedules say. The functions do nothing.
ghost use Rattle.rr_images.specs.Schedules.Example.{IsExample};
ghost use Rattle.rr_images.specs.Schedules.Laws as laws;

use crate::schedules::Worlds;

/// Whatever events come, each image keeps the world of the acknowledged commands, or that with the pending one. A store
/// that serves holds the world of the acknowledged ones, and no opening is refused.
pub fn prefix<W: Worlds>()
    ensures sound { laws.Prefix W.worlds }
    ensures opens { laws.NeverTurnedAway W.worlds }
{}

/// What a commit and a tick promise of a crash within them is what the law's events allow.
pub fn calls_are_events<W: Worlds>()
    ensures commits { laws.CommitsAreEvents W.worlds }
    ensures refusals { laws.RefusalsAreEvents W.worlds }
    ensures ticks { laws.TicksAreEvents W.worlds }
{}

/// A schedule of which the law speaks, over worlds of which it speaks.
pub fn example()
    ensures { IsExample }
{}
