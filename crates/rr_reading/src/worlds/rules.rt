ghost use Rattle.rr_reading.specs.Worlds.Spelling.{worlds};
ghost use Rattle.rr_reading.specs.Worlds.World.{WorldRules};

use rr_images::Codec;
use std::marker::PhantomData;

/// Which lines of records are lawful in a world, and to which world they lead; and which bytes show a game. It has no
/// code.
pub trait Rules {
    /// The lines, and the bytes.
    ghost rules: { WorldRules };
}

/// Files of worlds under these rules. It has no code.
pub struct Worlds<R> {
    rules: PhantomData<R>,
}

impl<R: Rules> Codec for Worlds<R> {
    ghost codec = { worlds R.rules };
}
