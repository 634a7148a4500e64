//! The spelling of a number, byte for byte.
ghost use Rattle.std.specs.Prelude.{◌≡◌, ◌≤◌, IfOk, IfErr, IfSome, IsTrue, ◌↔◌, length, option_map, MatchResult};
ghost use Rattle.json_text.specs.Reading.{number_step, may_end};
ghost use Rattle.json_text.specs.Scan.{scan_number, number_end};
ghost use Rattle.json_text.specs.Parts.{part_of};

/// The part of a number that its last byte belongs to.
#[derive(Clone, Copy)]
pub(crate) enum Part {
    Minus,
    Zero,
    Int,
    Point,
    Fraction,
    Exponent,
    ExponentSign,
    ExponentDigits,
}

impl Part {
    fn may_end(self) -> bool
        ensures { result ≡ may_end (part_of self) }
    {
        matches!(
            self,
            Part::Zero | Part::Int | Part::Fraction | Part::ExponentDigits
        )
    }

    /// The part that the byte belongs to, if the number can continue with it.
    fn after(self, byte: u8) -> Option<Part>
        ensures { option_map part_of result ≡ number_step (part_of self) byte }
    {
        match (self, byte) {
            (Part::Minus, b'0') => Some(Part::Zero),
            (Part::Minus | Part::Int, b'0'..=b'9') => Some(Part::Int),
            (Part::Zero | Part::Int, b'.') => Some(Part::Point),
            (Part::Point | Part::Fraction, b'0'..=b'9') => Some(Part::Fraction),
            (Part::Zero | Part::Int | Part::Fraction, b'e' | b'E') => Some(Part::Exponent),
            (Part::Exponent, b'+' | b'-') => Some(Part::ExponentSign),
            (Part::Exponent | Part::ExponentSign | Part::ExponentDigits, b'0'..=b'9') => {
                Some(Part::ExponentDigits)
            }
            _ => None,
        }
    }

    fn end(self, n: usize) -> Result<usize, usize>
        ensures ended { result ≡ number_end (part_of self) n }
        ensures count { MatchResult result (λ m. m ≡ n) (λ m. m ≡ n) }
    {
        if self.may_end() { Ok(n) } else { Err(n) }
    }
}

/// The number of bytes after the number's first one, or before the first byte with which it cannot continue.
#[tactic(auto, unfolding(crate::specs::Scan::scan_number))]
pub(crate) fn number_len(first: Part, bytes: &[u8]) -> Result<usize, usize>
    ensures scanned { result ≡ scan_number (part_of first) 0 bytes.now }
    ensures within { MatchResult result (λ n. n ≤ length bytes.now) (λ n. n ≤ length bytes.now) }
{
    let mut part = first;
    for (n, byte) in bytes.iter().enumerate() {
        match part.after(*byte) {
            Some(next) => part = next,
            None => return part.end(n),
        }
    }
    part.end(bytes.len())
}
