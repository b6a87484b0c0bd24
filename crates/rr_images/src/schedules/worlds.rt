ghost use Rattle.rr_images.specs.Schedules.Worlds.{Worlds as WorldsOf};

/// Commands and worlds, and which files stand for a world and which keep one. It has no code.
pub trait Worlds {
    /// What they are.
    ghost worlds: { WorldsOf };
}
