//! The bytes that the text formats tell apart.

ghost use Rattle.std.specs.Prelude.{◌≡◌, ◌≤◌, length};
ghost use Rattle.std.specs.List.{prefix_len, list_all};
ghost use Rattle.std.specs.Char.{is_ascii_digit};
ghost use Rattle.text_tokens.specs.Bytes.{is_blank, is_line_space, is_white_space, is_letter, is_word_byte};

/// Whether the byte is a space or a tab.
pub fn is_blank(byte: u8) -> bool
    ensures { result ≡ is_blank byte }
{
    byte == b' ' || byte == b'\t'
}

/// Whether the byte is a blank or a CR.
pub fn is_line_space(byte: u8) -> bool
    ensures { result ≡ is_line_space byte }
{
    is_blank(byte) || byte == b'\r'
}

/// Whether the byte is a blank, a CR or a LF.
pub fn is_white_space(byte: u8) -> bool
    ensures { result ≡ is_white_space byte }
{
    is_line_space(byte) || byte == b'\n'
}

/// How many blanks come first.
pub fn blanks_len(bytes: &[u8]) -> usize
    ensures value { result ≡ prefix_len is_blank bytes.now }
    ensures within { result ≤ length bytes.now }
{
    bytes.iter().take_while(|byte| is_blank(**byte)).count()
}

/// How many blanks and CRs come first.
pub fn line_spaces_len(bytes: &[u8]) -> usize
    ensures value { result ≡ prefix_len is_line_space bytes.now }
    ensures within { result ≤ length bytes.now }
{
    bytes
        .iter()
        .take_while(|byte| is_line_space(**byte))
        .count()
}

/// Whether the bytes are blanks and CRs alone.
pub fn are_line_spaces(bytes: &[u8]) -> bool
    ensures { result ≡ list_all is_line_space bytes.now }
{
    bytes.iter().all(|byte| is_line_space(*byte))
}

/// How many digits come first.
pub fn digits_len(bytes: &[u8]) -> usize
    ensures value { result ≡ prefix_len is_ascii_digit bytes.now }
    ensures within { result ≤ length bytes.now }
{
    bytes
        .iter()
        .take_while(|byte| byte.is_ascii_digit())
        .count()
}

/// Whether the bytes are digits alone.
pub fn are_digits(bytes: &[u8]) -> bool
    ensures { result ≡ list_all is_ascii_digit bytes.now }
{
    bytes.iter().all(|byte| byte.is_ascii_digit())
}

/// Whether a word may begin with the byte.
pub fn is_letter(byte: u8) -> bool
    ensures { result ≡ is_letter byte }
{
    (b'A' <= byte && byte <= b'Z') || (b'a' <= byte && byte <= b'z') || byte == b'_'
}

/// Whether a word may go on with the byte.
pub fn is_word_byte(byte: u8) -> bool
    ensures { result ≡ is_word_byte byte }
{
    is_letter(byte) || byte.is_ascii_digit()
}
