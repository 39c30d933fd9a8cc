//! The classes of bytes that the rules of tokens name, and the longest runs of them.

ghost use Rattle.std.specs.Prelude.{◌≡◌, ◌≤◌, ◌==◌, length};
ghost use Rattle.std.specs.List.{prefix_len};
ghost use Rattle.std.specs.Char.{is_ascii_digit, is_ascii_hexdigit};
ghost use Rattle.nir_lex.specs.Classes.{starts_word, is_in_word, is_blank, is_in_comment, is_quote, is_inside_quotes, is_punctuation, is_word, begins};

#[tactic(auto, unfolding(crate::specs::Classes::starts_word))]
pub fn starts_word(byte: u8) -> bool
    ensures { result ≡ starts_word byte }
{
    byte.is_ascii_alphabetic() || byte == b'_'
}

#[tactic(auto, unfolding(crate::specs::Classes::is_in_word))]
pub fn is_in_word(byte: u8) -> bool
    ensures { result ≡ is_in_word byte }
{
    byte.is_ascii_alphanumeric() || byte == b'_'
}

#[tactic(auto, unfolding(crate::specs::Classes::is_blank))]
pub fn is_blank(byte: u8) -> bool
    ensures { result ≡ is_blank byte }
{
    b" \t\r\n".contains(&byte)
}

#[tactic(auto, unfolding(crate::specs::Classes::is_quote))]
pub fn is_quote(byte: u8) -> bool
    ensures { result ≡ is_quote byte }
{
    byte == b'\'' || byte == b'"'
}

#[tactic(auto, unfolding(crate::specs::Classes::is_inside_quotes))]
pub fn is_inside_quotes(quote: u8, byte: u8) -> bool
    ensures { result ≡ is_inside_quotes quote byte }
{
    0x20 <= byte && byte <= 0x7e && byte != quote
}

#[tactic(auto, unfolding(crate::specs::Classes::is_punctuation))]
pub fn is_punctuation(byte: u8) -> bool
    ensures { result ≡ is_punctuation byte }
{
    b"()[]{},:;=@.*".contains(&byte)
}

/// Whether the bytes are one word: a letter or `_`, and then letters, digits and `_`.
#[tactic(auto, unfolding(crate::specs::Classes::is_word))]
pub fn is_word(bytes: &[u8]) -> bool
    ensures { result ≡ is_word bytes.now }
{
    begins_word(bytes) && word_run(bytes) == bytes.len()
}

/// How many bytes at the front may stand in a word.
pub fn word_run(bytes: &[u8]) -> usize
    ensures { result ≡ prefix_len is_in_word bytes.now }
{
    bytes.iter().take_while(|byte| is_in_word(**byte)).count()
}

/// How many bytes at the front are decimal digits.
pub fn digit_run(bytes: &[u8]) -> usize
    ensures { result ≡ prefix_len is_ascii_digit bytes.now }
{
    bytes
        .iter()
        .take_while(|byte| byte.is_ascii_digit())
        .count()
}

/// How many bytes at the front are hexadecimal digits.
pub fn hex_digit_run(bytes: &[u8]) -> usize
    ensures { result ≡ prefix_len is_ascii_hexdigit bytes.now }
{
    bytes
        .iter()
        .take_while(|byte| byte.is_ascii_hexdigit())
        .count()
}

/// How many bytes at the front belong to a comment: all before the line feed.
pub fn comment_run(bytes: &[u8]) -> usize
    ensures { result ≡ prefix_len is_in_comment bytes.now }
{
    bytes.iter().take_while(|byte| **byte != b'\n').count()
}

/// How many bytes at the front may stand between two of these quotes.
pub fn quoted_run(quote: u8, bytes: &[u8]) -> usize
    ensures value { result ≡ prefix_len (is_inside_quotes quote) bytes.now }
    ensures within { result ≤ length bytes.now }
{
    bytes
        .iter()
        .take_while(|byte| is_inside_quotes(quote, **byte))
        .count()
}

/// Whether a word could begin here.
pub fn begins_word(bytes: &[u8]) -> bool
    ensures { result ≡ begins starts_word bytes.now }
{
    match bytes {
        [byte, ..] => starts_word(*byte),
        [] => false,
    }
}

/// Whether this byte stands first.
pub fn begins_with(byte: u8, bytes: &[u8]) -> bool
    ensures { result ≡ begins (λ first. first == byte) bytes.now }
{
    match bytes {
        [first, ..] => *first == byte,
        [] => false,
    }
}
