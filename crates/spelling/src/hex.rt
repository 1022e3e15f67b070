// Hexadecimal digits.
ghost use Rattle.std.specs.Prelude.{◌≡◌};
ghost use Rattle.spelling.specs.Texts.{hex_value, joined};

// The value of a digit, of either case.
pub fn value(digit: u8) -> Option<u8>
    ensures { result ≡ hex_value digit }
{
    let value = char::from(digit).to_digit(16)?;
    u8::try_from(value).ok()
}

// The byte that two digits write.
pub fn byte(high: u8, low: u8) -> Option<u8>
    ensures { result ≡ joined (hex_value high) (hex_value low) }
{
    Some(16 * value(high)? + value(low)?)
}
