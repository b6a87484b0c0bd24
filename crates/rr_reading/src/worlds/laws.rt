//! What always holds of worlds and their spelling. The functions do nothing: a caller's proof cites what they ensure.
ghost use Rattle.rr_reading.specs.Laws.{NamesChains, SpellsForms};
ghost use Rattle.rr_reading.specs.Worlds.Laws as laws;
ghost use Rattle.rr_reading.specs.Worlds.Spelling.{worlds};

use crate::worlds::Rules;

/// A directory and its chains spell one world at most, and a line leads to one world where the rules say so. So a file
/// stands for one world.
pub fn worlds_are_exact<R: Rules>()
    ensures { laws.AreExact R.rules }
{}

/// What a reading of a file needs: a directory names the chains that `dir` reads of it, and where a table's chain isn't
/// as many commands as it says, no world is spelled.
pub fn worlds_are_read<R: Rules>()
    ensures chains { NamesChains (worlds R.rules) }
    ensures forms { SpellsForms (worlds R.rules) }
{}

/// What is written of a world is read back as that world, wherever the chains stand; and what spells a world is what is
/// written of it. So are snapshots, where each shows its game.
pub fn worlds_are_read_back<R: Rules>()
    ensures written { laws.WrittenIsRead R.rules }
    ensures read { laws.ReadIsWritten R.rules }
{}

/// What a checkpoint's plan asks of its directory: with the texts' chains, which stay where they are, and a chain laid
/// for each table, it names them all and those of the snapshots, and spells the world.
pub fn checkpoints_spell_worlds<R: Rules>()
    ensures { laws.CheckpointsSpell R.rules }
{}
