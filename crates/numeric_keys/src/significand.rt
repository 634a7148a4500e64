ghost use Rattle.std.specs.Prelude.{◌≡◌, ℕ, ◌+◌, ◌-◌, ◌*◌, ◌^◌, ◌<◌, ◌≤◌, Some, IfSome, IfNone, length, min};
ghost use Rattle.std.specs.Str.Parse.{AllDigits, digits_value, digits_value_after};
ghost use Rattle.numeric_keys.specs.Number.{largest_size};
ghost use Rattle.numeric_keys.specs.Significand.{number_with, IsTrimmed, IsTooLong};

/// The greatest size of a number of millionths: those of 5,000,000,000.
pub const LARGEST: u64 = 5_000_000_000_000_000;

// Ten to this power and above is larger than `LARGEST`.
const POWER_ABOVE: u128 = 16;

/// The digits of a number without its trailing zeros, and how many of these there are.
#[derive(Clone, Copy)]
pub struct Significand {
    pub digits: u64,
    pub zeros: usize,
}

impl Significand {
    pub const ZERO: Significand = Significand {
        digits: 0,
        zeros: 0,
    };

    /// The number with these digits written after it. `None` if its significand is above `LARGEST`.
    pub fn followed_by(self, digits: &[u8]) -> Option<Significand>
        requires digits { AllDigits 10 digits.now }
        requires room { self.zeros + length digits.now < 2 ^ 64 }
        requires trimmed { IsTrimmed self }
        ensures some { IfSome result (λ s.
            number_with s ≡ digits_value_after 10 (number_with self) digits.now) }
        ensures trimmed { IfSome result IsTrimmed }
        ensures zeros { IfSome result (λ s. s.zeros ≤ self.zeros + length digits.now) }
        ensures none { IfNone result
            (IsTooLong (digits_value_after 10 (number_with self) digits.now)) }
    {
        let mut number = self;
        for byte in digits {
            number = number.followed_by_digit((*byte - b'0') as u64)?;
        }
        Some(number)
    }

    fn followed_by_digit(self, digit: u64) -> Option<Significand>
        requires digit { digit < 10 }
        requires room { self.zeros + 1 < 2 ^ 64 }
        requires trimmed { IsTrimmed self }
        ensures some { IfSome result (λ s. number_with s ≡ number_with self * 10 + digit) }
        ensures trimmed { IfSome result IsTrimmed }
        ensures zeros { IfSome result (λ s. s.zeros ≤ self.zeros + 1) }
        ensures none { IfNone result (IsTooLong (number_with self * 10 + digit)) }
    {
        if digit == 0 {
            return Some(Significand {
                digits: self.digits,
                zeros: self.zeros + 1,
            });
        }
        let digits = scaled(self.digits, self.zeros as u128 + 1)? + digit;
        if digits > LARGEST {
            return None;
        }
        Some(Significand { digits, zeros: 0 })
    }

    /// The number times ten to the power `up` over ten to the power `down`, if that is whole and at most `LARGEST`.
    pub fn moved(self, up: u128, down: u128) -> Option<u64>
        requires room { self.zeros + up < 2 ^ 128 }
        requires trimmed { IsTrimmed self }
        ensures within { IfSome result (λ size. size ≤ largest_size) }
        ensures some { IfSome result (λ size. number_with self * 10 ^ up ≡ size * 10 ^ down) }
        ensures every { (size : ℕ) → size ≤ largest_size →
            number_with self * 10 ^ up ≡ size * 10 ^ down → result ≡ Some size }
    {
        if self.digits == 0 {
            return Some(0);
        }
        let up = up + self.zeros as u128;
        if up < down {
            return None;
        }
        scaled(self.digits, up - down)
    }
}

// The number times ten to this power, if that is at most `LARGEST`.
fn scaled(number: u64, power: u128) -> Option<u64>
    requires { number ≤ largest_size }
    ensures within { IfSome result (λ size. size ≤ largest_size) }
    ensures some { IfSome result (λ size. size ≡ number * 10 ^ power) }
    ensures none { IfNone result (largest_size < number * 10 ^ power) }
{
    if number == 0 {
        return Some(0);
    }
    if power >= POWER_ABOVE {
        return None;
    }
    let size = number as u128 * 10u128.pow(power as u32);
    if size <= LARGEST as u128 {
        Some(size as u64)
    } else {
        None
    }
}

/// The number that these digits write, or the greatest `u64` if the number is above it.
pub fn capped_number(digits: &[u8]) -> u64
    requires { AllDigits 10 digits.now }
    ensures { result ≡ min (digits_value 10 digits.now) (2 ^ 64 - 1) }
{
    let mut number: u64 = 0;
    for byte in digits {
        number = number
            .saturating_mul(10)
            .saturating_add((*byte - b'0') as u64);
    }
    number
}
