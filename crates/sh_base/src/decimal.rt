//! Decimal numbers in texts.
ghost use Rattle.std.specs.Prelude.{◌≡◌};
ghost use Rattle.std.specs.List.{list_all};
ghost use Rattle.std.specs.Char.{is_ascii_digit};
ghost use Rattle.sh_base.specs.Decimals.{at_most, is_number, number_of, value_of};

/// The greatest number of 18 digits.
const MAX_NUMBER: u64 = 999_999_999_999_999_999;

/// Whether each byte is a decimal digit. It is true of an empty text.
pub fn all_digits(text: &[u8]) -> bool
    ensures { result ≡ list_all is_ascii_digit text.now }
{
    text.iter().all(|byte| byte.is_ascii_digit())
}

/// The value of decimal digits if that value is at most the limit, else `None`. The value of no digits is 0.
/// Bytes that aren't digits aren't refused: check them with `all_digits` first.
pub fn limited_value(digits: &[u8], limit: u64) -> Option<u64>
    ensures { result ≡ at_most limit (value_of digits.now) }
{
    let mut value = 0u64;
    'digits: for digit in digits {
        let next = 10 * u128::from(value) + u128::from(digit.saturating_sub(b'0'));
        if next > u128::from(limit) {
            return None;
        }
        value = next as u64;
    }
    Some(value)
}

/// Whether an operand has one to 18 digits, and nothing else.
fn is_number(operand: &[u8]) -> bool
    ensures { result ≡ is_number operand.now }
{
    1 <= operand.len() && operand.len() <= 18 && all_digits(operand)
}

/// The number of an operand, which has one to 18 decimal digits; `None` of any other operand.
pub fn number_of(operand: &[u8]) -> Option<u64>
    ensures { result ≡ number_of operand.now }
{
    if !is_number(operand) {
        return None;
    }
    limited_value(operand, MAX_NUMBER)
}
