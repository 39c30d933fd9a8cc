//! What a text is cut into.

use nir_host::Seq;

/// What a token is.
#[derive(Clone, Copy, Debug, PartialEq, Eq)]
pub enum TokenKind {
    /// A letter or `_`, and then letters, digits and `_`.
    Word,
    /// A number from -2^63 to 2^64 - 1.
    Number { value: i128 },
    /// A `%`, and then one or more letters, digits or `_`.
    Name,
    /// Bytes from 0x20 to 0x7e between two `'` or two `"`. The quotes are part of the token.
    Quoted,
    /// One of `( ) [ ] { } , : ; = @ . *`.
    Punct { byte: u8 },
    /// The end of the text.
    End,
}

impl TokenKind {
    ghost use Rattle.std.specs.Prelude.{◌≡◌};
    ghost use Rattle.nir_lex.specs.Kinds.{is_mark, is_end};

    /// Whether it is this mark of punctuation.
    pub fn is_mark(self, mark: u8) -> bool
        ensures { result ≡ is_mark mark self }
    {
        match self {
            TokenKind::Punct { byte } => byte == mark,
            TokenKind::Word
            | TokenKind::Number { .. }
            | TokenKind::Name
            | TokenKind::Quoted
            | TokenKind::End => false,
        }
    }

    /// Whether it is the end of the text.
    pub fn is_end(self) -> bool
        ensures { result ≡ is_end self }
    {
        match self {
            TokenKind::End => true,
            TokenKind::Word
            | TokenKind::Number { .. }
            | TokenKind::Name
            | TokenKind::Quoted
            | TokenKind::Punct { .. } => false,
        }
    }
}

/// A token, and where it stands: the places of its first byte and behind its last, in bytes from
/// the start of the text.
#[derive(Clone, Copy, Debug, PartialEq, Eq)]
pub struct Token {
    pub kind: TokenKind,
    pub start: u64,
    pub end: u64,
}

impl Token {
    ghost use Rattle.std.specs.Prelude.{◌≡◌, ◌≤◌, length};
    ghost use Rattle.nir_lex.specs.Laws.{token_text};

    /// The bytes that the token takes of its text.
    pub fn text<'a>(&self, text: &'a [u8]) -> &'a [u8]
        requires ordered { self.now.start ≤ self.now.end }
        requires within { self.now.end ≤ length text.now }
        ensures { result.now ≡ token_text text.now self.now }
    {
        &text[self.start as usize..self.end as usize]
    }
}

/// The tokens of a text in its order. The last is the end.
pub type Tokens = Seq<Token>;
