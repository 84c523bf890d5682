// Numbers in a text: decimals and capital hex digits.
ghost use Rattle.std.specs.Prelude.{◌≡◌, ◌≤◌, length};
ghost use Rattle.portal_log.specs.Numbers.{digit, one_digit, small, hex_digit, hex_value};

// The value of a decimal digit.
fn decimal_digit(b: u8) -> Option<u8>
    ensures { result ≡ digit b }
{
    match b {
        b'0'..=b'9' => Some(b - b'0'),
        _ => None,
    }
}

// The value of a text that is one decimal digit.
pub fn one_digit(part: &[u8]) -> Option<u8>
    ensures { result ≡ one_digit part.now }
{
    match part {
        [b] => decimal_digit(*b),
        _ => None,
    }
}

// A decimal of one or two digits, with no leading zero but `0` itself.
pub(crate) fn small_decimal(part: &[u8]) -> Option<u8>
    ensures { result ≡ small part.now }
{
    match part {
        [a] => decimal_digit(*a),
        [b'0', _] => None,
        [a, b] => Some(10 * decimal_digit(*a)? + decimal_digit(*b)?),
        _ => None,
    }
}

fn hex_digit(b: u8) -> Option<u8>
    ensures { result ≡ hex_digit b }
{
    match b {
        b'0'..=b'9' => Some(b - b'0'),
        b'A'..=b'F' => Some(b - b'A' + 10),
        _ => None,
    }
}

// The value of capital hex digits, or the place of the first byte that is none.
pub(crate) fn hex_value(part: &[u8]) -> Result<u32, usize>
    requires { length part.now ≤ 7 }
    ensures { result ≡ hex_value part.now }
{
    let mut value = 0;
    for (i, b) in part.iter().enumerate() {
        value = 16 * value + u32::from(hex_digit(*b).ok_or(i)?);
    }
    Ok(value)
}
