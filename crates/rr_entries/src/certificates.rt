//! The names of certificates and trains.
ghost use Rattle.std.specs.Prelude.{◌≡◌, ◌++◌, [], ◌∷◌, codes, OnOk};
ghost use Rattle.rr_entries.specs.Words.{certificate_word, spaced, train_word};

use rr_books::{Cert, Train};
use rr_orders::scan::write_word;
use std::alloc::AllocError;

/// Writes a certificate's name after a space.
pub(crate) fn write_certificate(cert: Cert, text: &mut Vec<u8>) -> Result<(), AllocError>
    ensures { OnOk result (text.new.items ≡ text.old.items ++ spaced (certificate_word cert ∷ [])) }
{
    match cert {
        Cert::Private(private) => write_word(private.name().as_bytes(), text),
        Cert::President(corp) => write_numbered(corp.name().as_bytes(), b"P", text),
        Cert::Share(corp, number) => {
            let mut buffer = itoa::Buffer::new();
            let digits = buffer.format(u64::from(number.number()));
            write_numbered(corp.name().as_bytes(), digits.as_bytes(), text)
        }
    }
}

/// Writes a train's name after a space: its kind, and its number among the trains of the kind, from
/// 1.
pub(crate) fn write_train_name(train: Train, text: &mut Vec<u8>) -> Result<(), AllocError>
    ensures { OnOk result (text.new.items ≡ text.old.items ++ spaced (train_word train ∷ [])) }
{
    let mut buffer = itoa::Buffer::new();
    let digits = buffer.format(u64::from(train.number));
    write_numbered(train.kind.name().as_bytes(), digits.as_bytes(), text)
}

// Writes a name, a hyphen, and which one of that name it is.
fn write_numbered(name: &[u8], which: &[u8], text: &mut Vec<u8>) -> Result<(), AllocError>
    ensures { OnOk result (text.new.items ≡ text.old.items ++ spaced ((name.now ++ codes "-" ++ which.now) ∷ [])) }
{
    write_word(name, text)?;
    text.extend_from_slice(b"-")?;
    text.extend_from_slice(which)?;
    Ok(())
}
