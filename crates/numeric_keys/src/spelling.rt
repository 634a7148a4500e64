ghost use Rattle.std.specs.Prelude.{◌≡◌, ◌≤◌, Bool, List, Some, None, MatchOption, IsTrue, length};
ghost use Rattle.numeric_keys.specs.NumberReader.{digit_count, is_int, digits_alone, signed_digits, exponent_of, digits_in_front, fraction_of, unsigned_of, number_of};
ghost use Rattle.numeric_keys.specs.Spelling.{parts_of, exponent_parts};

/// The parts of a number's spelling (RFC 8259, section 6). A part that is left out has no digits.
#[derive(Clone, Copy)]
pub struct Spelling<'a> {
    pub negative: bool,
    pub whole: &'a [u8],
    pub fraction: &'a [u8],
    pub exponent: Exponent<'a>,
}

#[derive(Clone, Copy)]
pub struct Exponent<'a> {
    pub negative: bool,
    pub digits: &'a [u8],
}

impl<'a> Spelling<'a> {
    pub fn read(text: &'a [u8]) -> Option<Spelling<'a>>
        ensures { MatchOption result (number_of text.now ≡ None)
            (λ s. number_of text.now ≡ Some (parts_of s)) }
    {
        match text {
            [b'-', unsigned @ ..] => read_unsigned(true, unsigned),
            _ => read_unsigned(false, text),
        }
    }
}

fn read_unsigned(negative: bool, text: &[u8]) -> Option<Spelling<'_>>
    ensures { MatchOption result (unsigned_of negative text.now ≡ None)
        (λ s. unsigned_of negative text.now ≡ Some (parts_of s)) }
{
    let (whole, rest) = text.split_at(count_digits(text));
    if !is_whole_part(whole) {
        return None;
    }
    let (fraction, rest) = read_fraction(rest)?;
    let exponent = read_exponent(rest)?;
    Some(Spelling {
        negative,
        whole,
        fraction,
        exponent,
    })
}

// Whether these digits may be before the point: at least one, and no zero before another.
fn is_whole_part(digits: &[u8]) -> bool
    ensures { result ≡ is_int digits.now }
{
    match digits {
        [] => false,
        [_] => true,
        [first, ..] => *first != b'0',
    }
}

fn count_digits(text: &[u8]) -> usize
    ensures value { result ≡ digit_count text.now }
    ensures within { result ≤ length text.now }
{
    text.iter().take_while(|byte| byte.is_ascii_digit()).count()
}

// The digits of the fraction in front, and what follows it.
fn read_fraction(text: &[u8]) -> Option<(&[u8], &[u8])>
    ensures { MatchOption result (fraction_of text.now ≡ None)
        (λ s. fraction_of text.now ≡ Some (s.0.now, s.1.now)) }
{
    match text {
        [b'.', rest @ ..] => split_digits(rest),
        _ => Some((&[], text)),
    }
}

// The digits in front, at least one, and what follows them.
fn split_digits(text: &[u8]) -> Option<(&[u8], &[u8])>
    ensures { MatchOption result (digits_in_front text.now ≡ None)
        (λ s. digits_in_front text.now ≡ Some (s.0.now, s.1.now)) }
{
    let count = count_digits(text);
    if count == 0 {
        return None;
    }
    Some(text.split_at(count))
}

fn read_exponent(text: &[u8]) -> Option<Exponent<'_>>
    ensures { MatchOption result (exponent_of text.now ≡ None)
        (λ e. exponent_of text.now ≡ Some (exponent_parts e)) }
{
    match text {
        [] => Some(Exponent {
            negative: false,
            digits: text,
        }),
        [b'e' | b'E', signed @ ..] => read_signed(signed),
        _ => None,
    }
}

fn read_signed(text: &[u8]) -> Option<Exponent<'_>>
    ensures { MatchOption result (signed_digits text.now ≡ None)
        (λ e. signed_digits text.now ≡ Some (exponent_parts e)) }
{
    match text {
        [b'-', digits @ ..] => only_digits(true, digits),
        [b'+', digits @ ..] => only_digits(false, digits),
        _ => only_digits(false, text),
    }
}

fn only_digits(negative: bool, digits: &[u8]) -> Option<Exponent<'_>>
    ensures { MatchOption result (digits_alone negative digits.now ≡ None)
        (λ e. digits_alone negative digits.now ≡ Some (exponent_parts e)) }
{
    let count = count_digits(digits);
    if count == 0 || count < digits.len() {
        return None;
    }
    Some(Exponent { negative, digits })
}
