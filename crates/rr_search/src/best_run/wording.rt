//! The words of a run's command.
ghost use Rattle.std.specs.Prelude.{◌≡◌, ◌++◌, IfOk, IsOkUnless, OnOk};
ghost use Rattle.rr_orders.specs.Order.{text};
ghost use Rattle.rr_orders.specs.Texts.{added};
ghost use Rattle.rr_orders.specs.declared.order.Order.TheVariants.{Run, RunBest};
ghost use Rattle.rr_routes.specs.Sheets.Certificate.{certificate_text};
ghost use Rattle.rr_routes.specs.Sheets.Sheet.{text_of};
ghost use Rattle.rr_search.specs.declared.fault.Fault.TheVariants.{OutOfMemory};

use crate::Fault;
use rr_books::Corp;
use rr_checker::CertTree;
use rr_orders::scan::write_word;
use rr_routes::sheets::{Sheet, write_certificate};
use std::alloc::{AllocError, Global};

// The words of the sheet.
pub(crate) fn sheet_text(alloc: Global, sheet: &Sheet) -> Result<Vec<u8>, Fault>
    ensures text { IfOk result (λ text. text.items ≡ text_of sheet.now) }
    ensures memory { IsOkUnless result OutOfMemory }
{
    match sheet.to_text(alloc) {
        Ok(text) => Ok(text),
        Err(_) => Err(Fault::OutOfMemory),
    }
}

// The words of the certificate.
pub(crate) fn certificate_text(alloc: Global, tree: &CertTree) -> Result<Vec<u8>, Fault>
    ensures text { IfOk result (λ text. text.items ≡ certificate_text tree.now) }
    ensures memory { IsOkUnless result OutOfMemory }
{
    match write_certificate(alloc, tree) {
        Ok(text) => Ok(text),
        Err(_) => Err(Fault::OutOfMemory),
    }
}

// The words of the command that runs by these words of a sheet and of a certificate.
pub(crate) fn command_text(
    alloc: Global,
    corp: Corp,
    sheet: &[u8],
    certificate: &[u8],
) -> Result<Vec<u8>, AllocError>
    ensures { IfOk result (λ words. words.items ≡ text (RunBest corp sheet.now certificate.now)) }
{
    let mut words = Vec::new(alloc);
    write_command(corp, sheet, certificate, &mut words)?;
    Ok(words)
}

fn write_command(
    corp: Corp,
    sheet: &[u8],
    certificate: &[u8],
    out: &mut Vec<u8>,
) -> Result<(), AllocError>
    ensures { OnOk result (out.new.items ≡ out.old.items ++ text (RunBest corp sheet.now certificate.now)) }
{
    write_run(corp, sheet, out)?;
    write_word(b"best", out)?;
    write_part(certificate, out)
}

fn write_run(corp: Corp, sheet: &[u8], out: &mut Vec<u8>) -> Result<(), AllocError>
    ensures { OnOk result (out.new.items ≡ out.old.items ++ text (Run corp sheet.now)) }
{
    out.extend_from_slice(b"run")?;
    write_word(corp.name().as_bytes(), out)?;
    write_part(sheet, out)
}

// Appends a space and the words, if there are any.
fn write_part(part: &[u8], out: &mut Vec<u8>) -> Result<(), AllocError>
    ensures { OnOk result (out.new.items ≡ out.old.items ++ added part.now) }
{
    if part.is_empty() {
        return Ok(());
    }
    write_word(part, out)
}
