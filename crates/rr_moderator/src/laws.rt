//! What the definitions of replies say. The calls do nothing: their contracts hold of all runs.
ghost use Rattle.rr_moderator.specs.Alone.{Alone};
ghost use Rattle.rr_moderator.specs.BestLaws.{BestRunsAreLawful, BestRunsEarnAlike};
ghost use Rattle.rr_moderator.specs.Durability.{NoneFailsWhileWorking};

use rr_disk::Disk;

/// Apart from device, room, memory, the number of tables and the best runs that are found, replies to a table's lines
/// don't depend on lines for other tables. Two moderators with one kit agree in a table, and each takes a run in which
/// nothing is refused because of the device, the file's room, memory or the number of tables. If the lines that name
/// the table are the same, and the runs that are found for those that ask for the best one, then so are the replies to
/// them, whatever lines for other tables come between.
pub fn alone()
    ensures { Alone }
{
    rr_game::history::laws::requests_have_one_verdict();
}

/// Whichever best run of a corporation is found at a table, the reply has the same revenue.
pub fn best_runs_earn_alike()
    ensures { BestRunsEarnAlike }
{
    rr_running::laws::best_earns_most();
}

/// No rule refuses a best run that is found. Only memory or the file may still keep it from being taken.
pub fn best_runs_are_lawful()
    ensures { BestRunsAreLawful }
{}

/// However many lines are answered, no reply says that the device failed while the device works. Such a failure is
/// never of the moderator's own making.
pub fn none_fails_while_working<D: Disk + Drop>()
    ensures { NoneFailsWhileWorking D.Honest D.Works D.state D.past D.fault_count D.write_count D.sync_count }
{}
