//! What values are printed as.

use std::alloc::Global;
use std::fmt::Display;
use std::test::Fail;

/// Whether a value is printed as this text.
pub(crate) fn is_printed<T: Display>(alloc: Global, value: &T, text: &str) -> Result<bool, Fail> {
    let printed = format!(in alloc; "{value}")?;
    Ok(printed.as_str() == text)
}
