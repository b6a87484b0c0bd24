//! Words written behind those that stand there.
ghost use Rattle.std.specs.Prelude.{◌≡◌, ◌∷◌, ◌++◌, OnOk, decimal};
ghost use Rattle.rr_orders.specs.Scan.Writing.{Continues};

use std::alloc::AllocError;

/// Appends a space and the word.
///
/// # Errors
/// Where `out` can't grow; what stood there still stands, and a part of the word may stand behind it.
pub fn write_word(word: &[u8], out: &mut Vec<u8>) -> Result<(), AllocError>
    ensures ok { OnOk result (out.new.items ≡ out.old.items ++ 32 ∷ word.now) }
    ensures kept { Continues out.old.items out.new.items }
{
    out.push(b' ')?;
    out.extend_from_slice(word)?;
    Ok(())
}

/// Appends a space and the number's decimal digits.
///
/// # Errors
/// Where `out` can't grow; what stood there still stands, and a part of the digits may stand behind it.
pub fn write_number(number: u64, out: &mut Vec<u8>) -> Result<(), AllocError>
    ensures ok { OnOk result (out.new.items ≡ out.old.items ++ 32 ∷ decimal number) }
    ensures kept { Continues out.old.items out.new.items }
{
    write_word(itoa::Buffer::new().format(number).as_bytes(), out)
}
