//! What the fields of a row say.

/// How a row says a truth value.
pub fn said(truth: bool) -> &'static str {
    if truth { "true" } else { "false" }
}

/// Whether the field is this number; `none` is no number.
pub fn is_number(found: Option<u64>, field: &str) -> bool {
    match found {
        Some(found) => match field.parse::<u64>() {
            Ok(number) => number == found,
            Err(_) => false,
        },
        None => field == "none",
    }
}

/// Whether the field is this text; `none` is no text.
pub fn is_text(found: Option<&str>, field: &str) -> bool {
    match found {
        Some(found) => found == field,
        None => field == "none",
    }
}
