// The chains that a directory names, followed one after another. A page that two of them reach is reached twice.
ghost use Rattle.std.specs.Prelude.{◌≡◌, ◌≢◌, ◌*◌, ◌<◌, ◌≤◌, ◌++◌, None, Some, true, length, map, IfOk, IfErr, OnOk};
ghost use Rattle.rr_reading.specs.Dir.Heads.{head_of};
ghost use Rattle.rr_images.specs.Following.{AllRead};
ghost use Rattle.rr_pages.specs.ReachedPages.{marks_of};
ghost use Rattle.rr_reading.specs.Chains.{all_held_in, lower, lower_of, IsFit, IsFollowed, damage_told, whole_of};
ghost use Rattle.rr_reading.specs.Lending.Fitting.{each_fits};
ghost use Rattle.rr_reading.specs.Faults.{CountsFault, IsNoVerdict, OnDeviceFault};
ghost use Rattle.rr_reading.specs.Told.{IsToldBroken, told_broken, told_least};
ghost use Rattle.rr_pages.specs.declared.page.TheConstants.{MOST_PAGES, PAGE_BYTES};

use crate::Fault;
use crate::dir::ChainRef;
use rr_disk::Disk;
use rr_pages::{Damage, FollowedChain, ReachedPages, chain_follow};
use std::alloc::Global;

// What following a chain found.
#[derive(Drop)]
pub(crate) enum Followed {
    Whole(FollowedChain),
    // The least clause that it breaks, as far as it goes.
    Broken(Damage),
}

// Chains that were followed one after another.
#[derive(Drop)]
struct Following {
    // Those that are whole.
    whole: Vec<FollowedChain>,
    // The least clause that the others break.
    least: Option<Damage>,
}

// Follows the chains of these heads. `Damaged` with the least clause that they break: behind a chain that is broken the
// others are followed too.
pub(crate) fn follow_chains<D: Disk>(
    alloc: Global,
    disk: &mut D,
    count: u32,
    reached: &mut ReachedPages,
    chains: &[ChainRef],
) -> Result<Vec<FollowedChain>, Fault>
    requires { count ≤ MOST_PAGES }
    ensures whole { IfOk result (λ followed. D.Honest disk.new
        → AllRead (D.state disk.old).content count (marks_of reached.old) (map head_of chains.now) (marks_of reached.new)
        (all_held_in (D.state disk.old).content followed.items)) }
    ensures each { IfOk result (λ followed. length followed.items ≡ length chains.now) }
    ensures fit { IfOk result (λ followed. each_fits count followed.items ≡ true) }
    ensures broken { IfErr result (λ fault. D.Honest disk.new
        → IsToldBroken (D.state disk.old).content count (marks_of reached.old) (map head_of chains.now) fault) }
    ensures fault { CountsFault (D.fault_count disk.old) (D.fault_count disk.new) result }
    ensures honest { D.Honest disk.new → D.Honest disk.old }
    ensures same_state { D.Honest disk.new → D.state disk.new ≡ D.state disk.old }
    ensures same_past { D.Honest disk.new → D.past disk.new ≡ D.past disk.old }
    ensures writes { D.write_count disk.new ≡ D.write_count disk.old }
    ensures syncs { D.sync_count disk.new ≡ D.sync_count disk.old }
    ensures device { OnDeviceFault result (D.Works disk.new → D.file_len disk.old < PAGE_BYTES * count) }
    ensures works { D.Works disk.new → D.Works disk.old }
    ensures same_len { D.file_len disk.new ≡ D.file_len disk.old }
{
    let mut following = Following {
        whole: Vec::new(alloc),
        least: None,
    };
    for chain in chains {
        let followed = follow(alloc, disk, count, reached, *chain)?;
        following.add(followed)?;
    }
    let all = following.judge()?;
    Ok(all)
}

impl Following {
    // Adds what following one more chain found.
    fn add(&mut self, followed: Followed) -> Result<(), Fault>
        ensures whole { OnOk result (self.new.whole.items ≡ self.old.whole.items ++ whole_of followed) }
        ensures least { OnOk result (self.new.least ≡ lower_of self.old.least (damage_told followed)) }
        ensures memory { IfErr result (λ fault. fault ≡ Fault.OutOfMemory) }
    {
        match followed {
            Followed::Whole(chain) => self.whole.push(chain)?,
            Followed::Broken(damage) => self.note(damage),
        }
        Ok(())
    }

    fn note(&mut self, damage: Damage)
        ensures least { self.new.least ≡ lower_of self.old.least (Some damage) }
        ensures whole { self.new.whole ≡ self.old.whole }
    {
        self.least = match self.least {
            None => Some(damage),
            Some(least) => Some(lower(least, damage)),
        };
    }

    // The chains, if all are whole.
    fn judge(self) -> Result<Vec<FollowedChain>, Fault>
        ensures { result ≡ told_least self.least self.whole }
    {
        match self.least {
            None => Ok(self.whole),
            Some(damage) => Err(Fault::Damaged(damage)),
        }
    }
}

// The one of the lower clause.
fn lower(least: Damage, damage: Damage) -> Damage
    ensures { result ≡ lower least damage }
{
    if damage.clause() < least.clause() {
        damage
    } else {
        least
    }
}

// Follows one chain.
fn follow<D: Disk>(
    alloc: Global,
    disk: &mut D,
    count: u32,
    reached: &mut ReachedPages,
    chain: ChainRef,
) -> Result<Followed, Fault>
    requires { count ≤ MOST_PAGES }
    ensures followed { IfOk result (λ followed. D.Honest disk.new
        → IsFollowed (D.state disk.old).content count (marks_of reached.old) (head_of chain) (marks_of reached.new) followed) }
    ensures fit { IfOk result (IsFit count) }
    ensures only { IfErr result (λ fault. D.Honest disk.new → IsNoVerdict fault) }
    ensures fault { CountsFault (D.fault_count disk.old) (D.fault_count disk.new) result }
    ensures honest { D.Honest disk.new → D.Honest disk.old }
    ensures same_state { D.Honest disk.new → D.state disk.new ≡ D.state disk.old }
    ensures same_past { D.Honest disk.new → D.past disk.new ≡ D.past disk.old }
    ensures writes { D.write_count disk.new ≡ D.write_count disk.old }
    ensures syncs { D.sync_count disk.new ≡ D.sync_count disk.old }
    ensures device { OnDeviceFault result (D.Works disk.new → D.file_len disk.old < PAGE_BYTES * count) }
    ensures works { D.Works disk.new → D.Works disk.old }
    ensures same_len { D.file_len disk.new ≡ D.file_len disk.old }
{
    match chain_follow(alloc, disk, count, reached, chain.head, Some(chain.length)) {
        Ok(followed) => Ok(Followed::Whole(followed)),
        Err(fault) => broken(fault),
    }
}

fn broken(fault: rr_pages::Fault) -> Result<Followed, Fault>
    ensures { result ≡ told_broken fault }
{
    match fault {
        rr_pages::Fault::Damaged(damage) => Ok(Followed::Broken(damage)),
        rr_pages::Fault::NotAStore => Err(Fault::NotAStore),
        rr_pages::Fault::Disk(fault) => Err(Fault::Disk(fault)),
        rr_pages::Fault::FileFull | rr_pages::Fault::HalfFull | rr_pages::Fault::OutOfMemory => Err(
            Fault::OutOfMemory,
        ),
    }
}
