//! Numbers.
ghost use Rattle.std.specs.Prelude.{◌≡◌, ◌≤◌, ◌<◌, ◌++◌, ℕ, List, length, IfSome};
ghost use Rattle.json_text.specs.Number.{AreDigits, IsDigits, IsInt, IsFraction, IsExponent, IsMinus, IsNumber, IsSignedDigits};
ghost use Rattle.event_text.specs.Written.{Begins};

/// What follows a number.
pub(crate) fn after_number(bytes: &[u8]) -> Option<&[u8]>
    ensures number { IfSome result (λ rest. Begins IsNumber bytes.now rest.now) }
    ensures shorter { IfSome result (λ rest. length rest.now < length bytes.now) }
{
    let int = after_minus(bytes);
    let fraction = after_int(int)?;
    let exponent = after_fraction(fraction)?;
    after_exponent(exponent)
}

fn after_minus(bytes: &[u8]) -> &[u8]
    ensures minus { Begins IsMinus bytes.now result.now }
    ensures within { length result.now ≤ length bytes.now }
{
    match bytes {
        [b'-', rest @ ..] => rest,
        _ => bytes,
    }
}

fn after_int(bytes: &[u8]) -> Option<&[u8]>
    ensures int { IfSome result (λ rest. Begins IsInt bytes.now rest.now) }
    ensures shorter { IfSome result (λ rest. length rest.now < length bytes.now) }
{
    match bytes {
        [b'0', rest @ ..] => Some(rest),
        [b'1'..=b'9', rest @ ..] => Some(after_more_digits(rest)),
        _ => None,
    }
}

fn after_fraction(bytes: &[u8]) -> Option<&[u8]>
    ensures fraction { IfSome result (λ rest. Begins IsFraction bytes.now rest.now) }
    ensures within { IfSome result (λ rest. length rest.now ≤ length bytes.now) }
{
    match bytes {
        [b'.', rest @ ..] => after_digits(rest),
        _ => Some(bytes),
    }
}

fn after_exponent(bytes: &[u8]) -> Option<&[u8]>
    ensures exponent { IfSome result (λ rest. Begins IsExponent bytes.now rest.now) }
    ensures within { IfSome result (λ rest. length rest.now ≤ length bytes.now) }
{
    match bytes {
        [b'e' | b'E', rest @ ..] => after_signed_digits(rest),
        _ => Some(bytes),
    }
}

fn after_signed_digits(bytes: &[u8]) -> Option<&[u8]>
    ensures digits { IfSome result (λ rest. Begins IsSignedDigits bytes.now rest.now) }
    ensures within { IfSome result (λ rest. length rest.now ≤ length bytes.now) }
{
    match bytes {
        [b'-' | b'+', rest @ ..] => after_digits(rest),
        _ => after_digits(bytes),
    }
}

/// What follows digits, of which there is at least one.
fn after_digits(bytes: &[u8]) -> Option<&[u8]>
    ensures digits { IfSome result (λ rest. Begins IsDigits bytes.now rest.now) }
    ensures within { IfSome result (λ rest. length rest.now ≤ length bytes.now) }
{
    match bytes {
        [b'0'..=b'9', rest @ ..] => Some(after_more_digits(rest)),
        _ => None,
    }
}

fn after_more_digits(bytes: &[u8]) -> &[u8]
    ensures digits { Begins AreDigits bytes.now result.now }
    ensures within { length result.now ≤ length bytes.now }
{
    let mut left = bytes;
    while let [b'0'..=b'9', rest @ ..] = left {
        left = rest;
    }
    left
}
