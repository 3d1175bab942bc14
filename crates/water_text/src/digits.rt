//! Numbers in decimal digits.
ghost use Rattle.std.specs.Prelude.{◌≡◌, ◌≤◌, ◌<◌, ◌^◌, ◌+◌, ◌-◌, length, slice_range, IsTrue};
ghost use Rattle.std.specs.Char.{is_ascii_digit};
ghost use Rattle.std.specs.List.{list_all};
ghost use Rattle.std.specs.Str.{all_ascii_digits};
ghost use Rattle.std.specs.Str.Parse.{digits_value};

/// Whether each byte is a decimal digit.
pub fn are_digits(text: &[u8]) -> bool
    ensures { result ≡ list_all is_ascii_digit text.now }
{
    text.iter().all(|byte| byte.is_ascii_digit())
}

/// The number that the digits write.
pub fn value_of(digits: &[u8]) -> u64
    requires short { length digits.now ≤ 19 }
    requires digits { IsTrue (all_ascii_digits digits.now) }
    ensures value { result ≡ digits_value 10 digits.now }
    ensures within { result < 10 ^ length digits.now }
{
    let mut value = 0;
    for digit in digits {
        value = value * 10 + u64::from(*digit - b'0');
    }
    value
}

/// The number that the digits at the indices from `from` to below `to` write, of which there are at most four.
pub fn value_at(text: &[u8], from: usize, to: usize) -> u16
    requires order { from ≤ to }
    requires within { to ≤ length text.now }
    requires short { to ≤ from + 4 }
    requires digits { IsTrue (all_ascii_digits (slice_range text.now from to)) }
    ensures value { result ≡ digits_value 10 (slice_range text.now from to) }
    ensures within { result < 10 ^ (to - from) }
{
    value_of(&text[from..to]) as u16
}
