//! What a search has found so far.
use rr_routes::sheets::Sheet;

// A legal sheet, and what it earns.
#[derive(Drop)]
pub(crate) struct Found {
    pub(crate) sheet: Sheet,
    pub(crate) revenue: usize,
}
