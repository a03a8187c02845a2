//! Comparing what an error writes with what is expected.

use std::alloc::Global;
use std::fmt::Display;

/// Returns whether an error, or another value, writes this text.
pub(crate) fn has_text<E: Display>(alloc: Global, error: &E, text: &str) -> bool {
    match format!(in alloc; "{error}") {
        Ok(written) => written.as_str() == text,
        Err(_) => false,
    }
}

/// Returns whether each of these errors writes the text beside it.
pub(crate) fn have_texts<E: Display>(alloc: Global, table: &[(E, &str)]) -> bool {
    for (error, text) in table {
        if !has_text(alloc, error, text) {
            return false;
        }
    }
    true
}
