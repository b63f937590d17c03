//! Decimal numbers.

ghost use Rattle.std.specs.Prelude.{◌≡◌, ◌≤◌, ℕ, IsTrue, IfSome};
ghost use Rattle.std.specs.List.{list_all};
ghost use Rattle.std.specs.Char.{is_ascii_digit};
ghost use Rattle.std.specs.Fmt.{decimal};
ghost use Rattle.text_tokens.specs.Numbers.{is_plain, value_at, plain_number_at};

use crate::bytes::are_digits;

/// Whether the bytes are digits, at least one, without leading zeros.
fn is_plain(bytes: &[u8]) -> bool
    ensures { result ≡ is_plain bytes.now }
{
    are_digits(bytes) && bytes.len() > 0 && (bytes.len() == 1 || bytes[0] != b'0')
}

/// The value of digits, where it is at most the limit, however many they are. No digits are 0.
pub fn value_up_to(limit: u64, digits: &[u8]) -> Option<u64>
    requires { IsTrue (list_all is_ascii_digit digits.now) }
    ensures value { result ≡ value_at limit digits.now }
    ensures within { IfSome result (λ n. n ≤ limit) }
{
    let past = limit as u128 + 1;
    let mut value: u128 = 0;
    for digit in digits {
        value = (value * 10 + u128::from(*digit - b'0')).min(past);
    }
    if value < past {
        Some(value as u64)
    } else {
        None
    }
}

/// The number up to the limit that is written so: in decimal digits, at least one, without leading zeros.
#[tactic(auto, unfolding(crate::specs::Numbers::plain_number_at))]
pub fn plain_number(limit: u64, bytes: &[u8]) -> Option<u64>
    ensures value { result ≡ plain_number_at limit bytes.now }
    ensures found { IfSome result (λ n. (n ≤ limit) × (bytes.now ≡ decimal n)) }
    ensures only { (n : ℕ) → n ≤ limit → bytes.now ≡ decimal n → result ≡ Some n }
{
    if is_plain(bytes) {
        value_up_to(limit, bytes)
    } else {
        None
    }
}

/// The number of 32 bits up to the limit that is written so: in decimal digits, at least one, without leading zeros.
pub fn plain_number_up_to(limit: u32, bytes: &[u8]) -> Option<u32>
    ensures value { result ≡ plain_number_at limit bytes.now }
    ensures found { IfSome result (λ n. (n ≤ limit) × (bytes.now ≡ decimal n)) }
    ensures only { (n : ℕ) → n ≤ limit → bytes.now ≡ decimal n → result ≡ Some n }
{
    let number = plain_number(u64::from(limit), bytes)?;
    Some(number as u32)
}
