//! The value of digits.

ghost use Rattle.std.specs.Prelude.{◌≡◌, ◌<◌, MatchOption};
ghost use Rattle.std.specs.Char.{is_ascii_digit};
ghost use Rattle.wcps_text.specs.Lexing.{decimal, Every};
ghost use Rattle.wcps_text.specs.Number.{max_number};

use crate::token::Literal;

/// The greatest number that a query can write.
const MAX_NUMBER: u64 = 9223372036854775807;

/// The number that the digits write, if it is not too large.
pub fn decimal(digits: &[u8]) -> Option<Literal>
    requires { Every is_ascii_digit digits.now }
    ensures { MatchOption result (max_number < decimal digits.now) (λ n. n.value ≡ decimal digits.now) }
{
    let mut value: u64 = 0;
    for byte in digits {
        let digit = u64::from(*byte - b'0');
        if value > MAX_NUMBER / 10 {
            return None;
        }
        let next = value * 10 + digit;
        if next > MAX_NUMBER {
            return None;
        }
        value = next;
    }
    Some(Literal { value })
}
