//! What always holds of records, and of worlds and their words. The functions do nothing: a caller's proof cites what
//! they ensure.
ghost use Rattle.rr_tables.specs.Lending.{PlayedTablesAreLent, TablesLendTheirSnapshots};
ghost use Rattle.rr_tables.specs.Records.Headline as headline;
ghost use Rattle.rr_tables.specs.Records.Laws as laws;
ghost use Rattle.rr_tables.specs.Records.Schedules.{of_tables};
ghost use Rattle.rr_images.specs.Schedules.Worlds.{AreWorlds};

/// Each world of commands is one world in words, with the texts of its kit; and what is in words is one world of
/// commands.
pub fn spelled_worlds_are_one()
    ensures words { laws.HaveOneInWords }
    ensures commands { laws.AreOneOfCommands }
    ensures of_form { laws.SpelledAreOfForm }
{}

/// A line leads from a world to one world, so that a file stands for one world, and an opening reads it in one way.
pub fn records_lead_to_one_world()
    ensures one { laws.LeadToOneWorld }
    ensures exact { laws.FilesAreExact }
{}

/// No line leads from a world back to it: the stamp of its table rises.
pub fn records_move_on()
    ensures { laws.MoveOn }
{}

/// If the tables were played, a request that is lawful at its table has a line that is taken: the text of its record.
/// And a line that is taken is that of a lawful request at tables that were played.
pub fn lawful_requests_are_taken()
    ensures taken { laws.LawfulAreTaken }
    ensures lawful { laws.TakenAreLawful }
    ensures unlawful { laws.UnlawfulLeadNowhere }
{}

/// The records of a file are those of requests, each lawful in its turn, and lead where the requests lead; and the
/// records of such requests lead there from tables that were played.
pub fn records_are_of_requests()
    ensures of_requests { laws.RecordsAreOfRequests }
    ensures replayed { laws.RequestsAreReplayed }
{}

/// A kit's world without a table was played, and records lead from worlds that were played to such worlds: what each
/// table keeps is an opening and then commands that are lawful, each after those before it.
pub fn played_worlds_stay_played()
    ensures new { laws.NewWorldsArePlayed }
    ensures stay { laws.PlayedStayPlayed }
    ensures replayed { laws.ReplayedArePlayed }
{}

/// A file that keeps a world that was played, or stands for one, has a root whose world was played: where records
/// follow, the first of them was taken from such a world, and where none do, the root's world is the file's. So an
/// opening may refuse a file whose root spells tables that weren't played.
pub fn played_worlds_have_played_bases()
    ensures replayed { laws.ReplayedWerePlayed }
    ensures read { laws.ReadHavePlayedBases }
    ensures kept { laws.KeptHavePlayedBases }
    ensures standing { laws.StandingHavePlayedBases }
    ensures tables { laws.TablesOfPlayedArePlayed }
{}

/// Tables that were played with a kit lend to a checkpoint the world in words that they are, with texts of this kit,
/// and snapshots whose bytes show the games of its tables.
pub fn played_tables_are_lent()
    ensures { PlayedTablesAreLent }
{}

/// A table that has its snapshots lends all of them, where each is short enough for a file: their counts rise, and there
/// are no more than 64 of them.
pub fn tables_lend_their_snapshots()
    ensures { TablesLendTheirSnapshots }
{}

/// Requests for tables, their worlds and their files are such that the law over schedules speaks of them: what is kept
/// stands, a request leads to one world, and none back to its own.
pub fn tables_are_worlds()
    ensures { AreWorlds of_tables }
{}

/// Whatever commits, ticks, faults, crashes and openings come, the acknowledged requests, each lawful in its turn, lead
/// to tables that each image keeps, or it keeps those with the one pending request. A store that serves has just the
/// acknowledged ones. And no opening is refused.
pub fn prefix()
    ensures sound { headline.WhateverComes }
    ensures opens { headline.NoneIsTurnedAway }
{}
