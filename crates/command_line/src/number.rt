//! Numbers of the command line.
ghost use Rattle.std.specs.Prelude.{◌≡◌, ◌≤◌, ◌↔◌, ℕ, MatchOption, IsTrue};
ghost use Rattle.command_line.specs.Number.{IsNumber};

use itoa::Buffer;

/// The number from `least` to `most` that the digits spell, without a sign or a leading zero.
pub(crate) fn read_number(digits: &str, least: u64, most: u64) -> Option<u64>
    ensures { MatchOption result
        ((number : ℕ) → ¬ IsNumber least most digits.now number)
        (λ number. IsNumber least most digits.now number) }
{
    match digits.parse::<u64>() {
        Ok(number) if is_spelled(number, digits, least, most) => Some(number),
        Ok(_other) => None,
        Err(_fault) => None,
    }
}

fn is_spelled(number: u64, digits: &str, least: u64, most: u64) -> bool
    ensures { IsTrue result ↔ IsNumber least most digits.now number }
{
    least <= number && number <= most && Buffer::new().format(number) == digits
}
