ghost use Rattle.rr_tables.specs.Records.Schedules.{of_tables};
ghost use Rattle.rr_tables.specs.Records.Taking.{table_rules};

use rr_images::schedules::Worlds;
use rr_reading::worlds::Rules;

/// The rules of tables of the game: a record's line is lawful where the tables were played and it spells a request that
/// its table may take, and it leads to the world in which the table has taken it. Bytes show the game that they spell,
/// where it is the play of the commands by the kit of the world's texts. It has no code.
pub struct TableRules;

impl Rules for TableRules {
    ghost rules = { table_rules };
}

/// What the law over schedules speaks of: requests, and the worlds and files of tables.
impl Worlds for TableRules {
    ghost worlds = { of_tables };
}
