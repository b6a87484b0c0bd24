//! What several of the tests share.
use std::alloc::Global;
use std::fmt::Display;

/// Whether the value is shown in these words.
pub(crate) fn is_shown<T: Display>(alloc: Global, value: &T, words: &str) -> bool {
    match format!(in alloc; "{value}") {
        Ok(shown) => shown.as_str() == words,
        Err(_) => false,
    }
}
