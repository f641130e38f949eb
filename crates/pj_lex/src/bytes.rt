//! Bytes by their use.
ghost use Rattle.std.specs.Prelude.{◌≡◌, ◌≤◌, length};
ghost use Rattle.std.specs.List.{prefix_len};
ghost use Rattle.pj_lex.specs.Bytes.{is_blank, is_digit, begins_word, is_word_byte, after_blanks};

/// Whether the byte is a space, a tab or a carriage return. A line feed is none of these.
pub fn is_blank(b: u8) -> bool
    ensures { result ≡ is_blank b }
{
    b == b' ' || b == b'\t' || b == b'\r'
}

/// Whether the byte is one of 0 to 9.
pub fn is_digit(b: u8) -> bool
    ensures { result ≡ is_digit b }
{
    b'0' <= b && b <= b'9'
}

/// Whether the byte is a letter of ASCII or `_`.
pub fn begins_word(b: u8) -> bool
    ensures { result ≡ begins_word b }
{
    b'a' <= b && b <= b'z' || b'A' <= b && b <= b'Z' || b == b'_'
}

/// Whether the byte is a letter of ASCII, a digit or `_`.
pub fn is_word_byte(b: u8) -> bool
    ensures { result ≡ is_word_byte b }
{
    begins_word(b) || is_digit(b)
}

/// How many blanks the bytes begin with. It reads these and one byte more.
pub fn blank_prefix(bytes: &[u8]) -> usize
    ensures count { result ≡ prefix_len is_blank bytes.now }
    ensures within { result ≤ length bytes.now }
{
    bytes.iter().take_while(|b| is_blank(**b)).count()
}

/// The bytes behind the blanks that the bytes begin with.
#[tactic(auto, unfolding(crate::specs::Bytes::after_blanks))]
pub fn skip_blanks(bytes: &[u8]) -> &[u8]
    ensures { result.now ≡ after_blanks bytes.now }
{
    bytes.split_at(blank_prefix(bytes)).1
}

/// How many digits the bytes begin with. It reads these and one byte more.
pub fn digit_prefix(bytes: &[u8]) -> usize
    ensures count { result ≡ prefix_len is_digit bytes.now }
    ensures within { result ≤ length bytes.now }
{
    bytes.iter().take_while(|b| is_digit(**b)).count()
}

/// How many letters, digits and `_` the bytes begin with. It reads these and one byte more.
pub fn word_prefix(bytes: &[u8]) -> usize
    ensures count { result ≡ prefix_len is_word_byte bytes.now }
    ensures within { result ≤ length bytes.now }
{
    bytes.iter().take_while(|b| is_word_byte(**b)).count()
}
