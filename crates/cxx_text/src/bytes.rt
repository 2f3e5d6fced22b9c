//! The classes of bytes.

ghost use Rattle.std.specs.Prelude.{◌≡◌};
ghost use Rattle.cxx_text.specs.Bytes.{is_space, is_letter, is_digit, is_word_byte, is_one_byte_sign, is_two_byte_sign};

/// Whether a byte is white space.
pub(crate) fn is_space(byte: u8) -> bool
    ensures { result ≡ is_space byte }
{
    byte == b' ' || (9 <= byte && byte <= 13)
}

/// Whether a byte is a letter or `_`.
pub(crate) fn is_letter(byte: u8) -> bool
    ensures { result ≡ is_letter byte }
{
    (b'A' <= byte && byte <= b'Z') || (b'a' <= byte && byte <= b'z') || byte == b'_'
}

/// Whether a byte is a digit.
pub(crate) fn is_digit(byte: u8) -> bool
    ensures { result ≡ is_digit byte }
{
    b'0' <= byte && byte <= b'9'
}

/// Whether a byte may stand in a word.
pub(crate) fn is_word_byte(byte: u8) -> bool
    ensures { result ≡ is_word_byte byte }
{
    is_letter(byte) || is_digit(byte)
}

/// Whether a byte is a sign.
pub(crate) fn is_one_byte_sign(byte: u8) -> bool
    ensures { result ≡ is_one_byte_sign byte }
{
    b"{}()[];:,*&=!.<>+-~".contains(&byte)
}

/// Whether two bytes are a sign.
pub(crate) fn is_two_byte_sign(first: u8, second: u8) -> bool
    ensures { result ≡ is_two_byte_sign first second }
{
    (first == b':' && second == b':')
        || (first == b'=' && second == b'=')
        || (first == b'!' && second == b'=')
        || (first == b'-' && second == b'>')
        || (first == b'<' && second == b'=')
}
