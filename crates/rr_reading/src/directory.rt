// The directory of a root.
ghost use Rattle.std.specs.Prelude.{◌≡◌, ◌*◌, ◌<◌, Bool, IfOk, IfErr};
ghost use Rattle.rr_reading.specs.Dir.Directory.{directory_of};
ghost use Rattle.rr_pages.specs.ReachedPages.{marks_of};
ghost use Rattle.rr_reading.specs.Chains.{held, held_in};
ghost use Rattle.rr_reading.specs.Faults.{CountsFault, OnDeviceFault};
ghost use Rattle.rr_reading.specs.Reading.{TakesRoot, HasDirectory, ReadsDirectory, Refuses};
ghost use Rattle.rr_pages.specs.declared.page.TheConstants.{PAGE_BYTES};

use crate::Fault;
use crate::dir::{Dir, Version};
use crate::root::page_count;
use crate::texts::read_text;
use rr_disk::Disk;
use rr_pages::{FollowedChain, ReachedPages, ReadChain, Root, chain_follow};
use std::alloc::Global;

// A directory as it was read.
#[derive(Drop)]
pub(crate) struct FoundDirectory {
    pub(crate) dir: Dir,
    pub(crate) chain: FollowedChain,
    pub(crate) reached: ReachedPages,
}

// Its chain as it was followed, and the bytes in it.
#[derive(Drop)]
struct FoundChain {
    chain: FollowedChain,
    read: ReadChain,
    reached: ReachedPages,
}

// Reads the directory of the root that is taken.
pub(crate) fn read_directory<D: Disk>(
    alloc: Global,
    disk: &mut D,
    root: &Root,
) -> Result<FoundDirectory, Fault>
    ensures found { IfOk result (λ found. D.Honest disk.new → (side : Bool) → TakesRoot (D.state disk.old).content side root.now
        → HasDirectory (D.state disk.old).content side root.now (marks_of found.reached) (held_in (D.state disk.old).content found.chain) (directory_of found.dir)) }
    ensures refused { IfErr result (λ fault. D.Honest disk.new → (side : Bool) → TakesRoot (D.state disk.old).content side root.now
        → Refuses (D.state disk.old).content fault) }
    ensures fault { CountsFault (D.fault_count disk.old) (D.fault_count disk.new) result }
    ensures honest { D.Honest disk.new → D.Honest disk.old }
    ensures same_state { D.Honest disk.new → D.state disk.new ≡ D.state disk.old }
    ensures same_past { D.Honest disk.new → D.past disk.new ≡ D.past disk.old }
    ensures writes { D.write_count disk.new ≡ D.write_count disk.old }
    ensures syncs { D.sync_count disk.new ≡ D.sync_count disk.old }
    ensures device { OnDeviceFault result (D.Works disk.new → D.file_len disk.old < PAGE_BYTES * root.now.pages) }
    ensures works { D.Works disk.new → D.Works disk.old }
    ensures same_len { D.file_len disk.new ≡ D.file_len disk.old }
{
    let FoundChain {
        chain,
        read,
        reached,
    } = read_chain_of(alloc, disk, root)?;
    let Some(version) = Version::of(root.version) else {
        return Err(Fault::NotAStore);
    };
    let dir = Dir::read(alloc, version, &read.bytes)?;
    Ok(FoundDirectory {
        dir,
        chain,
        reached,
    })
}

// Follows its chain up to the page that ends it, beginning with no page reached, and then reads it.
fn read_chain_of<D: Disk>(alloc: Global, disk: &mut D, root: &Root) -> Result<FoundChain, Fault>
    ensures found { IfOk result (λ found. D.Honest disk.new → (side : Bool) → TakesRoot (D.state disk.old).content side root.now
        → ReadsDirectory (D.state disk.old).content root.now (marks_of found.reached) (held_in (D.state disk.old).content found.chain)) }
    ensures bytes { IfOk result (λ found. D.Honest disk.new → held found.read ≡ held_in (D.state disk.old).content found.chain) }
    ensures refused { IfErr result (λ fault. D.Honest disk.new → (side : Bool) → TakesRoot (D.state disk.old).content side root.now
        → Refuses (D.state disk.old).content fault) }
    ensures fault { CountsFault (D.fault_count disk.old) (D.fault_count disk.new) result }
    ensures honest { D.Honest disk.new → D.Honest disk.old }
    ensures same_state { D.Honest disk.new → D.state disk.new ≡ D.state disk.old }
    ensures same_past { D.Honest disk.new → D.past disk.new ≡ D.past disk.old }
    ensures writes { D.write_count disk.new ≡ D.write_count disk.old }
    ensures syncs { D.sync_count disk.new ≡ D.sync_count disk.old }
    ensures device { OnDeviceFault result (D.Works disk.new → D.file_len disk.old < PAGE_BYTES * root.now.pages) }
    ensures works { D.Works disk.new → D.Works disk.old }
    ensures same_len { D.file_len disk.new ≡ D.file_len disk.old }
{
    let mut reached = ReachedPages::new(alloc)?;
    let chain = chain_follow(
        alloc,
        disk,
        page_count(root.pages),
        &mut reached,
        root.directory,
        None,
    )?;
    let read = read_text(alloc, disk, &chain)?;
    Ok(FoundChain {
        chain,
        read,
        reached,
    })
}
