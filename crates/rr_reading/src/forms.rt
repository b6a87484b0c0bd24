// The form of what the tables' chains hold.
ghost use Rattle.std.specs.Prelude.{◌≡◌, ◌↔◌, ◌*◌, ◌<◌, length, IsTrue, IfOk, IfErr, OnOk};
ghost use Rattle.rr_pages.specs.declared.page.TheConstants.{PAGE_BYTES};
ghost use Rattle.rr_reading.specs.Chains.{AreOfForm, HoldsCommands};
ghost use Rattle.rr_reading.specs.Faults.{CountsFault, IsNoVerdict, OnDeviceFault};
ghost use Rattle.rr_reading.specs.Held.{tables_in};
ghost use Rattle.rr_reading.specs.Lending.Chains.{all_of, count_of};
ghost use Rattle.rr_reading.specs.Lending.Commands.{Passes, bytes_at, steps_left_of};
ghost use Rattle.rr_reading.specs.Told.{RefusesForm, of_cut};

use crate::Fault;
use crate::dir::TableEntry;
use crate::lending::Commands;
use rr_disk::Disk;
use rr_pages::Damage;

// What stands next in a chain.
#[derive(Clone, Copy)]
pub(crate) enum Next {
    Command,
    End,
    // The chain ends within a command.
    Cut,
}

// Judges whether each table's chain holds as many commands as its entry says: else it is damaged by `Form`.
pub(crate) fn judge_forms<D: Disk>(
    disk: &mut D,
    entries: &[TableEntry],
    tables: &mut Commands,
) -> Result<(), Fault>
    requires { length entries.now ≡ length (all_of tables.old.chains) }
    ensures forms { OnOk result (D.Honest disk.new → AreOfForm entries.now (tables_in (D.state disk.old).content tables.old)) }
    ensures refused { IfErr result (λ fault. D.Honest disk.new
        → RefusesForm fault (AreOfForm entries.now (tables_in (D.state disk.old).content tables.old))) }
    ensures all { all_of tables.new.chains ≡ all_of tables.old.chains }
    ensures pages { count_of tables.new.chains ≡ count_of tables.old.chains }
    ensures fault { CountsFault (D.fault_count disk.old) (D.fault_count disk.new) result }
    ensures honest { D.Honest disk.new → D.Honest disk.old }
    ensures same_state { D.Honest disk.new → D.state disk.new ≡ D.state disk.old }
    ensures same_past { D.Honest disk.new → D.past disk.new ≡ D.past disk.old }
    ensures writes { D.write_count disk.new ≡ D.write_count disk.old }
    ensures syncs { D.sync_count disk.new ≡ D.sync_count disk.old }
    ensures device { OnDeviceFault result (D.Works disk.new → D.file_len disk.old < PAGE_BYTES * count_of tables.old.chains) }
    ensures works { D.Works disk.new → D.Works disk.old }
    ensures same_len { D.file_len disk.new ≡ D.file_len disk.old }
{
    for (index, entry) in entries.iter().enumerate() {
        let holds = holds_commands(disk, tables, index, entry.kept)?;
        if !holds {
            return Err(Fault::Damaged(Damage::Form));
        }
    }
    Ok(())
}

// Whether the chain at this place holds so many commands and nothing else.
fn holds_commands<D: Disk>(
    disk: &mut D,
    tables: &mut Commands,
    index: usize,
    count: u32,
) -> Result<bool, Fault>
    ensures holds { IfOk result (λ holds. D.Honest disk.new
        → (IsTrue holds ↔ HoldsCommands (bytes_at (D.state disk.old).content tables.old index) count)) }
    ensures only { IfErr result IsNoVerdict }
    ensures all { all_of tables.new.chains ≡ all_of tables.old.chains }
    ensures pages { count_of tables.new.chains ≡ count_of tables.old.chains }
    ensures fault { CountsFault (D.fault_count disk.old) (D.fault_count disk.new) result }
    ensures honest { D.Honest disk.new → D.Honest disk.old }
    ensures same_state { D.Honest disk.new → D.state disk.new ≡ D.state disk.old }
    ensures same_past { D.Honest disk.new → D.past disk.new ≡ D.past disk.old }
    ensures writes { D.write_count disk.new ≡ D.write_count disk.old }
    ensures syncs { D.sync_count disk.new ≡ D.sync_count disk.old }
    ensures device { OnDeviceFault result (D.Works disk.new → D.file_len disk.old < PAGE_BYTES * count_of tables.old.chains) }
    ensures works { D.Works disk.new → D.Works disk.old }
    ensures same_len { D.file_len disk.new ≡ D.file_len disk.old }
{
    tables.turn_to(index);
    let mut left = count;
    'commands: loop {
        let next = pass(disk, tables)?;
        match next {
            Next::Command => {
                if left == 0 {
                    return Ok(false);
                }
                left -= 1;
            }
            Next::End => return Ok(left == 0),
            Next::Cut => return Ok(false),
        }
    }
}

// Goes on to the next command, if there is one.
fn pass<D: Disk>(disk: &mut D, tables: &mut Commands) -> Result<Next, Fault>
    ensures passes { IfOk result (λ next. D.Honest disk.new → Passes (D.state disk.old).content tables.old next tables.new) }
    ensures fewer { IfOk result (λ next. next ≡ Next.Command → steps_left_of tables.new < steps_left_of tables.old) }
    ensures only { IfErr result IsNoVerdict }
    ensures all { all_of tables.new.chains ≡ all_of tables.old.chains }
    ensures pages { count_of tables.new.chains ≡ count_of tables.old.chains }
    ensures fault { CountsFault (D.fault_count disk.old) (D.fault_count disk.new) result }
    ensures honest { D.Honest disk.new → D.Honest disk.old }
    ensures same_state { D.Honest disk.new → D.state disk.new ≡ D.state disk.old }
    ensures same_past { D.Honest disk.new → D.past disk.new ≡ D.past disk.old }
    ensures writes { D.write_count disk.new ≡ D.write_count disk.old }
    ensures syncs { D.sync_count disk.new ≡ D.sync_count disk.old }
    ensures device { OnDeviceFault result (D.Works disk.new → D.file_len disk.old < PAGE_BYTES * count_of tables.old.chains) }
    ensures works { D.Works disk.new → D.Works disk.old }
    ensures same_len { D.file_len disk.new ≡ D.file_len disk.old }
{
    match tables.step(disk) {
        Ok(Some(_)) => Ok(Next::Command),
        Ok(None) => Ok(Next::End),
        Err(fault) => cut(fault),
    }
}

// A chain that ends within a command is judged by its caller.
fn cut(fault: rr_pages::Fault) -> Result<Next, Fault>
    ensures { result ≡ of_cut fault }
{
    match fault {
        rr_pages::Fault::Damaged(_) => Ok(Next::Cut),
        rr_pages::Fault::NotAStore => Err(Fault::NotAStore),
        rr_pages::Fault::Disk(fault) => Err(Fault::Disk(fault)),
        rr_pages::Fault::FileFull | rr_pages::Fault::HalfFull | rr_pages::Fault::OutOfMemory => Err(
            Fault::OutOfMemory,
        ),
    }
}
