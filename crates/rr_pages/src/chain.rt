ghost use Rattle.std.specs.Prelude.{◌≡◌, ◌⊎◌, ◌+◌, length, IfOk, IfErr, IsErrOf};
ghost use Rattle.rr_pages.specs.FreePages.{present_of, coming_of};
ghost use Rattle.rr_pages.specs.Laying.{pages_for};
ghost use Rattle.rr_pages.specs.Sets.{NoneFree, TooFewFree};
ghost use Rattle.rr_pages.specs.Writing.{IsLaid};

use crate::page::{MOST_USED, lay_page};
use crate::{Fault, FreePages};
use std::alloc::Global;

/// A page that is still to be written, and its 4,096 bytes.
#[derive(Drop)]
pub struct FreshPage {
    pub page: u32,
    pub bytes: Vec<u8>,
}

/// Lays bytes into free pages, each but the last one filled, and gives the first of them. No bytes take one page. The
/// new pages come behind those that are there, in the order of the chain. It makes no device call.
///
/// `FileFull` where fewer pages are free than are needed; else `OutOfMemory` alone, and never where no page is free.
/// After an error some pages may be taken and laid: `FreePages::abandon` frees all that were taken.
pub fn chain_write(
    alloc: Global,
    free: &mut FreePages,
    fresh: &mut Vec<FreshPage>,
    bytes: &[u8],
) -> Result<u32, Fault>
    ensures laid { IfOk result (IsLaid (present_of free.old) (coming_of free.old) (coming_of free.new) bytes.now
        fresh.old.items fresh.new.items) }
    ensures count { IfOk result (λ _. length fresh.new.items
        ≡ length fresh.old.items + pages_for (length bytes.now)) }
    ensures full { IsErrOf result Fault.FileFull
        → TooFewFree (present_of free.old) (coming_of free.old) (pages_for (length bytes.now)) }
    ensures err { IfErr result (λ fault. (fault ≡ Fault.FileFull) ⊎ (fault ≡ Fault.OutOfMemory)) }
    ensures memory { IsErrOf result Fault.OutOfMemory
        → NoneFree (present_of free.old) (coming_of free.old) → ⊥ }
    ensures present { present_of free.new ≡ present_of free.old }
{
    let head = free.take()?;
    let mut page = head;
    let mut rest = bytes;
    while rest.len() > MOST_USED {
        let next = free.take()?;
        let full = lay_page(alloc, next, &rest[..MOST_USED])?;
        fresh.push(FreshPage { page, bytes: full })?;
        page = next;
        rest = &rest[MOST_USED..];
    }
    let last = lay_page(alloc, 0, rest)?;
    fresh.push(FreshPage { page, bytes: last })?;
    Ok(head)
}
