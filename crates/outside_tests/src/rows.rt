//! What the fields of a row say.
use std::alloc::{AllocError, Global};

/// The text of a field in which `\r` represents CR, and `\n` LF.
pub(crate) fn unescaped(alloc: Global, field: &str) -> Result<String, AllocError> {
    let text = field.replace(alloc, r"\r", "\r")?;
    text.as_str().replace(alloc, r"\n", "\n")
}
