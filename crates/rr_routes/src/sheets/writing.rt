//! Numbers in texts.
ghost use Rattle.std.specs.Prelude.{◌≡◌, ◌+◌, ◌++◌, OnOk, IsOkUnless, decimal};

use std::alloc::AllocError;

/// Appends the number's digits.
pub fn write_number(number: u64, out: &mut Vec<u8>) -> Result<(), AllocError>
    ensures { OnOk result (out.new.items ≡ out.old.items ++ decimal number) }
{
    out.extend_from_slice(itoa::Buffer::new().format(number).as_bytes())
}

/// Appends the digits of a place's number, which is one more.
pub fn write_place(place: usize, out: &mut Vec<u8>) -> Result<(), AllocError>
    ensures { OnOk result (out.new.items ≡ out.old.items ++ decimal (place + 1)) }
{
    out.extend_from_slice(itoa::Buffer::new().format(place as u128 + 1).as_bytes())
}
