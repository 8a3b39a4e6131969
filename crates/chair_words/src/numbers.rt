//! The numbers of a line.

ghost use Rattle.std.specs.Prelude.{◌≡◌};
ghost use Rattle.chair_words.specs.Line.{number_spelt};
ghost use Rattle.chair_words.specs.Reading.{digit_in};

/// The value of a decimal digit.
fn digit(byte: u8) -> Option<u16>
    ensures { result ≡ digit_in byte }
{
    if byte.is_ascii_digit() {
        Some(u16::from(byte - b'0'))
    } else {
        None
    }
}

/// The number that one to three decimal digits spell.
pub fn number_of(text: &[u8]) -> Option<u16>
    ensures { result ≡ number_spelt text.now }
{
    match text {
        [ones] => digit(*ones),
        [tens, ones] => Some(10 * digit(*tens)? + digit(*ones)?),
        [hundreds, tens, ones] => Some(
            100 * digit(*hundreds)? + 10 * digit(*tens)? + digit(*ones)?,
        ),
        _ => None,
    }
}
