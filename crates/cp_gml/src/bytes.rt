// The classes of bytes of which tokens are made.
ghost use Rattle.std.specs.Prelude.{◌≡◌};
ghost use Rattle.cp_gml.specs.Bytes.{is_blank, is_line_end, is_digit, is_sign, is_word_start, is_word_byte, is_number_start, is_number_byte, is_exponent_mark};

pub(crate) fn is_blank(byte: u8) -> bool
    ensures { result ≡ is_blank byte }
{
    matches!(byte, b' ' | b'\t' | b'\n' | b'\r')
}

pub(crate) fn is_line_end(byte: u8) -> bool
    ensures { result ≡ is_line_end byte }
{
    matches!(byte, b'\n' | b'\r')
}

pub(crate) fn is_digit(byte: u8) -> bool
    ensures { result ≡ is_digit byte }
{
    matches!(byte, b'0'..=b'9')
}

pub(crate) fn is_sign(byte: u8) -> bool
    ensures { result ≡ is_sign byte }
{
    matches!(byte, b'+' | b'-')
}

pub(crate) fn is_word_start(byte: u8) -> bool
    ensures { result ≡ is_word_start byte }
{
    matches!(byte, b'A'..=b'Z' | b'a'..=b'z' | b'_')
}

pub(crate) fn is_word_byte(byte: u8) -> bool
    ensures { result ≡ is_word_byte byte }
{
    is_word_start(byte) || is_digit(byte)
}

pub(crate) fn is_number_start(byte: u8) -> bool
    ensures { result ≡ is_number_start byte }
{
    is_digit(byte) || is_sign(byte) || byte == b'.'
}

pub(crate) fn is_number_byte(byte: u8) -> bool
    ensures { result ≡ is_number_byte byte }
{
    is_word_byte(byte) || is_sign(byte) || byte == b'.'
}

pub(crate) fn is_exponent_mark(byte: u8) -> bool
    ensures { result ≡ is_exponent_mark byte }
{
    matches!(byte, b'e' | b'E')
}
