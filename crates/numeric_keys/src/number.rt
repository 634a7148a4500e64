ghost use Rattle.std.specs.Prelude.{◌≡◌, ℕ, ℤ, ◌≤◌, ◌+◌, ◌<◌, ◌^◌, ◌↔◌, Some, IfSome, length};
ghost use Rattle.std.specs.Str.Parse.{AllDigits};
ghost use Rattle.numeric_keys.specs.Number.{largest_size, HasSize, IsMillionths};
ghost use Rattle.numeric_keys.specs.Spelling.{parts_of};

use crate::significand::{Significand, capped_number};
use crate::spelling::Spelling;

/// The value of a number's spelling (RFC 8259, section 6) times 1,000,000, if that is a whole number from
/// -5,000,000,000,000,000 to 5,000,000,000,000,000, both included. `None` for any other text. The time is linear in the
/// text, whatever its exponent.
pub fn millionths(text: &str) -> Option<i64>
    ensures { (m : ℤ) → (result ≡ Some m) ↔ IsMillionths text.now m }
{
    let spelling = Spelling::read(text.as_bytes())?;
    let size = size_in_millionths(&spelling)? as i64;
    Some(if spelling.negative { -size } else { size })
}

// The millionths of the number without its sign.
fn size_in_millionths(spelling: &Spelling<'_>) -> Option<u64>
    requires whole { AllDigits 10 spelling.now.whole.now }
    requires fraction { AllDigits 10 spelling.now.fraction.now }
    requires exponent { AllDigits 10 spelling.now.exponent.digits.now }
    ensures within { IfSome result (λ size. size ≤ largest_size) }
    ensures some { IfSome result (λ size. HasSize (parts_of spelling.now) size) }
    ensures every { (size : ℕ) → size ≤ largest_size → HasSize (parts_of spelling.now) size →
        result ≡ Some size }
{
    let number = Significand::ZERO
        .followed_by(spelling.whole)?
        .followed_by(spelling.fraction)?;
    let places = spelling.fraction.len() as u128;
    let power = capped_number(spelling.exponent.digits) as u128;
    if spelling.exponent.negative {
        number.moved(6, places + power)
    } else {
        number.moved(power + 6, places)
    }
}
