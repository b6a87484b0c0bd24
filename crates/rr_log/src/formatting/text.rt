// One chain more in a new file.
ghost use Rattle.std.specs.Prelude.{◌≡◌, ◌+◌, ◌≤◌, length, IfOk, IfErr};
ghost use Rattle.rr_log.specs.Formatting.InTurn.{AreInTurn};
ghost use Rattle.rr_pages.specs.FreePages.{present_of, coming_of};
ghost use Rattle.rr_pages.specs.Laying.{pages_for};
ghost use Rattle.rr_pages.specs.Writing.{IsLaid};
ghost use Rattle.rr_reading.specs.declared.dir.directory.TheConstants.{MOST_TEXT};

use rr_pages::{Fault, FreePages, FreshPage, chain_write};
use rr_reading::dir::ChainRef;
use std::alloc::Global;

// Lays bytes behind the pages that are there. They are few enough that a page is always free.
pub(crate) fn lay_text(
    alloc: Global,
    free: &mut FreePages,
    fresh: &mut Vec<FreshPage>,
    text: &[u8],
) -> Result<ChainRef, Fault>
    requires short { length text.now ≤ MOST_TEXT }
    requires few { length fresh.old.items ≤ 1000 }
    requires in_turn { AreInTurn (present_of free.old) (coming_of free.old) (length fresh.old.items) }
    ensures laid { IfOk result (λ chain. IsLaid (present_of free.old) (coming_of free.old) (coming_of free.new) text.now
        fresh.old.items fresh.new.items chain.head) }
    ensures counted { IfOk result (λ chain. chain.length ≡ length text.now) }
    ensures in_turn { IfOk result (λ _. AreInTurn (present_of free.new) (coming_of free.new) (length fresh.new.items)) }
    ensures few { IfOk result (λ _. length fresh.new.items ≤ length fresh.old.items + 17) }
    ensures pages { IfOk result (λ _. length fresh.new.items
        ≡ length fresh.old.items + pages_for (length text.now)) }
    ensures memory { IfErr result (λ fault. fault ≡ Fault.OutOfMemory) }
    ensures present { present_of free.new ≡ present_of free.old }
{
    let head = chain_write(alloc, free, fresh, text)?;
    Ok(ChainRef {
        head: u64::from(head),
        length: text.len() as u32,
    })
}
