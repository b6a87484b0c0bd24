ghost use Rattle.std.specs.Prelude.{◌≡◌, ◌+◌, ◌*◌, ◌<◌, ◌≤◌, [], length, take, IfOk, OnOk, OnErr};
ghost use Rattle.rr_disk.specs.Disk.{CountsFault, IsAt};
ghost use Rattle.rr_pages.specs.declared.page.TheConstants.{LINK_BYTES, MOST_USED, PAGE_BYTES};
ghost use Rattle.rr_reading.specs.Lending.Pages.{bytes_in};

use rr_disk::{Disk, Fault};
use rr_pages::{LINK_BYTES, Link, MOST_USED, PAGE_BYTES};
use std::alloc::{AllocError, Global};

// Room for the used bytes of one page. Once made it takes no more memory.
#[derive(Drop)]
pub(crate) struct PageBuffer {
    bytes: Vec<u8>,
    used: usize,
    ghost whole: { length bytes.items ≡ MOST_USED },
    ghost fits: { used ≤ MOST_USED },
}

impl PageBuffer {
    ghost use Rattle.rr_reading.specs.Lending.PageBuffer.{piece_in};

    // It holds nothing.
    pub(crate) fn new(alloc: Global) -> Result<PageBuffer, AllocError>
        ensures { IfOk result (λ buffer. piece_in buffer ≡ []) }
    {
        Ok(PageBuffer {
            bytes: zeros(alloc, MOST_USED)?,
            used: 0,
        })
    }

    // Holds nothing from here on.
    pub(crate) fn clear(&mut self)
        ensures { piece_in self.new ≡ [] }
    {
        self.used = 0;
    }

    // The used bytes of the page that was read last.
    pub(crate) fn piece(&self) -> &[u8]
        ensures { result.now ≡ piece_in self.now }
    {
        &self.bytes[..self.used]
    }

    // Reads the used bytes of a page. Where that fails it holds nothing.
    pub(crate) fn load<D: Disk>(&mut self, disk: &mut D, link: &Link) -> Result<(), Fault>
        requires { link.now.used ≤ MOST_USED }
        ensures piece { OnOk result (D.Honest disk.new → piece_in self.new ≡ bytes_in (D.state disk.old).content link.now) }
        ensures nothing { OnErr result (piece_in self.new ≡ []) }
        ensures fault { CountsFault (D.fault_count disk.old) (D.fault_count disk.new) result }
        ensures honest { D.Honest disk.new → D.Honest disk.old }
        ensures same_state { D.Honest disk.new → D.state disk.new ≡ D.state disk.old }
        ensures same_past { D.Honest disk.new → D.past disk.new ≡ D.past disk.old }
        ensures writes { D.write_count disk.new ≡ D.write_count disk.old }
        ensures syncs { D.sync_count disk.new ≡ D.sync_count disk.old }
        ensures device { OnErr result (D.Works disk.new
            → D.file_len disk.old < PAGE_BYTES * link.now.page + LINK_BYTES + link.now.used) }
        ensures works { D.Works disk.new → D.Works disk.old }
        ensures same_len { D.file_len disk.new ≡ D.file_len disk.old }
    {
        self.used = 0;
        let used = usize::from(link.used);
        let at = PAGE_BYTES * u64::from(link.page) + LINK_BYTES as u64;
        read_front(disk, at, used, &mut self.bytes)?;
        self.used = used;
        Ok(())
    }
}

// Reads so many bytes into the front.
fn read_front<D: Disk>(disk: &mut D, at: u64, count: usize, bytes: &mut [u8]) -> Result<(), Fault>
    requires { count ≤ length bytes.old }
    ensures read { OnOk result (D.Honest disk.new → IsAt (D.state disk.old).content at (take count bytes.new)) }
    ensures fault { CountsFault (D.fault_count disk.old) (D.fault_count disk.new) result }
    ensures honest { D.Honest disk.new → D.Honest disk.old }
    ensures same_state { D.Honest disk.new → D.state disk.new ≡ D.state disk.old }
    ensures same_past { D.Honest disk.new → D.past disk.new ≡ D.past disk.old }
    ensures writes { D.write_count disk.new ≡ D.write_count disk.old }
    ensures syncs { D.sync_count disk.new ≡ D.sync_count disk.old }
    ensures device { OnErr result (D.Works disk.new → D.file_len disk.old < at + count) }
    ensures works { D.Works disk.new → D.Works disk.old }
    ensures same_len { D.file_len disk.new ≡ D.file_len disk.old }
{
    disk.read_at(at, &mut bytes[..count])?;
    Ok(())
}

// So many bytes, each 0.
pub(crate) fn zeros(alloc: Global, count: usize) -> Result<Vec<u8>, AllocError>
    ensures { IfOk result (λ bytes. length bytes.items ≡ count) }
{
    vec![in alloc; 0; count]
}
