//! Tokens as the grammar sees them.

ghost use Rattle.std.specs.Prelude.{◌≡◌, ◌≤◌, length};
ghost use Rattle.std.specs.Option.{option_copied};
ghost use Rattle.nir_lex.specs.Kinds.{is_end};
ghost use Rattle.nir_text.specs.Signs.{sign_of, word_of, name_of, is_mark, is_word, kind_is_name, first_of, signs_of};
ghost use Rattle.nir_text.specs.View.{sign};
ghost use Rattle.nir_text.specs.Within.{IsWithin, AreWithin};

use nir_lex::{Token, TokenKind};

/// A token: what it is, its bytes, and where it stands.
#[derive(Clone, Copy)]
pub struct Sign<'a> {
    pub kind: TokenKind,
    pub text: &'a [u8],
    pub place: u64,
}

impl<'a> Sign<'a> {
    /// A token of this text.
    pub fn of(text: &'a [u8], token: Token) -> Sign<'a>
        requires { IsWithin (length text.now) token }
        ensures { sign result ≡ sign_of text.now token }
    {
        Sign {
            kind: token.kind,
            text: &text[token.start as usize..token.end as usize],
            place: token.start,
        }
    }

    /// The sign of the first token, or that of nothing.
    pub fn first(text: &'a [u8], tokens: &[Token]) -> Sign<'a>
        requires { AreWithin (length text.now) tokens.now }
        ensures { sign result ≡ first_of (signs_of text.now tokens.now) }
    {
        match tokens {
            [] => Sign {
                kind: TokenKind::End,
                text: &[],
                place: 0,
            },
            [token, ..] => Sign::of(text, *token),
        }
    }

    pub fn is_mark(&self, mark: u8) -> bool
        ensures { result ≡ is_mark mark (sign self.now) }
    {
        self.kind.is_mark(mark)
    }

    pub fn is_word(&self, word: &[u8]) -> bool
        ensures { result ≡ is_word word.now (sign self.now) }
    {
        match self.kind {
            TokenKind::Word => self.text == word,
            TokenKind::Punct { .. }
            | TokenKind::Number { .. }
            | TokenKind::Name
            | TokenKind::Quoted
            | TokenKind::End => false,
        }
    }

    /// The bytes of a word.
    pub fn word(&self) -> Option<&'a [u8]>
        ensures { option_copied result ≡ word_of (sign self.now) }
    {
        match self.kind {
            TokenKind::Word => Some(self.text),
            TokenKind::Punct { .. }
            | TokenKind::Number { .. }
            | TokenKind::Name
            | TokenKind::Quoted
            | TokenKind::End => None,
        }
    }

    /// The bytes of a name.
    pub fn name(&self) -> Option<&'a [u8]>
        ensures { option_copied result ≡ name_of (sign self.now) }
    {
        match self.kind {
            TokenKind::Name => Some(self.text),
            TokenKind::Punct { .. }
            | TokenKind::Number { .. }
            | TokenKind::Word
            | TokenKind::Quoted
            | TokenKind::End => None,
        }
    }

    pub fn is_name(&self) -> bool
        ensures { result ≡ kind_is_name (sign self.now).kind }
    {
        match self.kind {
            TokenKind::Name => true,
            TokenKind::Punct { .. }
            | TokenKind::Number { .. }
            | TokenKind::Word
            | TokenKind::Quoted
            | TokenKind::End => false,
        }
    }

    pub fn is_end(&self) -> bool
        ensures { result ≡ is_end (sign self.now).kind }
    {
        self.kind.is_end()
    }
}
