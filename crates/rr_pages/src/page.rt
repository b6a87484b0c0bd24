// Pages, and numbers as their bytes.
ghost use Rattle.std.specs.Prelude.{◌≡◌, ◌↔◌, ◌≤◌, IfOk, IsTrue, length};
ghost use Rattle.byteorder.specs.Endian.{big_bytes};
ghost use Rattle.rr_pages.specs.Laying.{page_spelling};
ghost use Rattle.rr_pages.specs.Pages.{IsData};

use byteorder::{BigEndian, ByteOrder};
use std::alloc::{AllocError, Global};

/// The bytes of a page.
pub const PAGE_BYTES: u64 = 4096;

/// The bytes in front of a data page's own: the next page, and how many of its own are used.
pub const LINK_BYTES: usize = 10;

/// The bytes of a data page that belong to its chain.
pub const MOST_USED: usize = PAGE_BYTES as usize - LINK_BYTES;

/// The first page of data. Before it lie the roots and the journal.
pub const FIRST_DATA: u32 = 514;

/// A file has at least so many pages: its directory takes one.
pub const LEAST_PAGES: u64 = FIRST_DATA as u64 + 1;

/// A file has at most so many pages.
pub const MOST_PAGES: u32 = 65536;

/// The gate byte that is open. Every other byte is a closed gate.
pub const OPEN: u8 = 0xa5;

// Whether this is the number of a data page, where the file has so many pages.
pub(crate) fn is_data(count: u32, page: u64) -> bool
    ensures { IsTrue result ↔ IsData count page }
{
    u64::from(FIRST_DATA) <= page && page < u64::from(count)
}

// A whole page of a chain, that leads to this next page.
pub(crate) fn lay_page(alloc: Global, next: u32, piece: &[u8]) -> Result<Vec<u8>, AllocError>
    requires { length piece.now ≤ MOST_USED }
    ensures { IfOk result (λ page. page.items ≡ page_spelling next piece.now) }
{
    let mut page = Vec::with_capacity(alloc, PAGE_BYTES as usize)?;
    page.extend_from_slice(&eight_bytes(next as u64))?;
    page.extend_from_slice(&two_bytes(piece.len() as u16))?;
    page.extend_from_slice(piece)?;
    page.resize(PAGE_BYTES as usize, 0)?;
    Ok(page)
}

fn eight_bytes(number: u64) -> [u8; 8]
    ensures { result ≡ big_bytes 8 number }
{
    let mut bytes = [0u8; 8];
    BigEndian::write_u64(&mut bytes, number);
    bytes
}

fn two_bytes(number: u16) -> [u8; 2]
    ensures { result ≡ big_bytes 2 number }
{
    let mut bytes = [0u8; 2];
    BigEndian::write_u16(&mut bytes, number);
    bytes
}
