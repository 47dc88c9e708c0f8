// A decimal number, read from a string of bytes.
ghost use Rattle.std.specs.Prelude.{◌≡◌};
ghost use Rattle.text.specs.Numeral.{number_of};
ghost use Rattle.text.specs.Reading.{with_digit};

const MOST_DIGITS: usize = 20;

// The number that s is, if it is 1 to 20 decimal digits and nothing else, and 64 bits hold it. `u64`'s own
// `parse` is another function: it takes a sign, and any number of zeros in front.
pub fn read_number(s: &[u8]) -> Option<u64>
    ensures { result ≡ number_of s.now }
{
    if s.is_empty() || MOST_DIGITS < s.len() {
        return None;
    }
    let mut value = 0;
    for byte in s {
        value = with_digit(value, *byte)?;
    }
    Some(value)
}

// The number that has one digit more than value, at its end.
#[tactic(auto, using(crate::specs::Reading::digit_wide, crate::specs::Reading::digit_fits))]
fn with_digit(value: u64, byte: u8) -> Option<u64>
    ensures { result ≡ with_digit value byte }
{
    if !byte.is_ascii_digit() {
        return None;
    }
    let tens = value.checked_mul(10)?;
    tens.checked_add(u64::from(byte - b'0'))
}
