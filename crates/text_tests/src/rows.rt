//! What the fields of a row say.
use std::alloc::Global;
use std::test::Fail;

/// How a row says a truth value. `None` is that the pattern was refused.
pub(crate) fn said(answer: Option<bool>) -> &'static str {
    match answer {
        Some(true) => "true",
        Some(false) => "false",
        None => "refused",
    }
}

/// The bytes of a field, in which `~` with two hex digits is one byte.
pub(crate) fn bytes_of(alloc: Global, field: &str) -> Result<Vec<u8>, Fail> {
    let mut bytes = Vec::new(alloc);
    let mut parts = field.split('~');
    if let Some(plain) = parts.next() {
        bytes.extend_from_slice(plain.as_bytes())?;
    }
    for escape in parts {
        add_escaped(&mut bytes, escape)?;
    }
    Ok(bytes)
}

/// Adds the byte of two hex digits, and the text after them.
fn add_escaped(bytes: &mut Vec<u8>, escape: &str) -> Result<(), Fail> {
    let Some((digits, text)) = escape.split_at_checked(2) else {
        return Err(Fail::new("a byte has two hex digits"));
    };
    bytes.push(u8::from_str_radix(digits, 16)?)?;
    bytes.extend_from_slice(text.as_bytes())?;
    Ok(())
}
