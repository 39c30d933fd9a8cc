//! Where a reader stands in a text: at a token, which is pulled without memory.

ghost use Rattle.term_read.specs.Standing.{Stands, Stands-prop};

use crate::fault::RuleFault;
use nir_lex::{Token, TokenKind, token_from};

/// A text, and the token of it that stands here.
#[derive(Clone, Copy)]
pub struct Point<'a> {
    pub(crate) text: &'a [u8],
    pub(crate) token: Token,
    ghost stands: { Stands text.now token } by { Stands-prop text.now token },
}

impl<'a> Point<'a> {
    ghost use Rattle.std.specs.Prelude.{◌≡◌, true, false, None, [], ◌∷◌, length};
    ghost use Rattle.grammar.specs.Terminals.{has, AQuoted, TheEnd, TheMark, TheWord, WordBut};
    ghost use Rattle.nir_lex.specs.From.{fault_of};
    ghost use Rattle.nir_lex.specs.Kinds.{is_end};
    ghost use Rattle.nir_lex.specs.Reading.{read_tokens};
    ghost use Rattle.rule_spelling.specs.Files.{Expected};
    ghost use Rattle.rule_spelling.specs.Text.{terminals_of, place_of_last};
    ghost use Rattle.term_read.specs.Source.{fault_at};
    ghost use Rattle.term_read.specs.Standing.{all_tokens};
    ghost use Rattle.term_read.specs.Views.{here, terminals};

    /// At the first token of a text that has tokens.
    #[tactic(auto, using(crate::proofs::Stood::first_stands, crate::proofs::Stood::all_from_first))]
    pub fn first(text: &'a [u8]) -> Point<'a>
        requires { fault_of (read_tokens text.now) ≡ None }
        ensures text { result.text.now ≡ text.now }
        ensures all { terminals result ≡ terminals_of text.now (all_tokens text.now) }
    {
        Point {
            text,
            token: token_from(text, 0),
        }
    }

    /// What the token is that stands here.
    pub fn kind(&self) -> TokenKind
        ensures { result ≡ (here self.now).kind }
    {
        self.token.kind
    }

    /// The bytes of the token that stands here.
    pub fn bytes(&self) -> &'a [u8]
        ensures { result.now ≡ (here self.now).text }
    {
        self.token.text(self.text)
    }

    /// Where the token stands, in bytes from the start of the text.
    #[tactic(auto, using(crate::proofs::Stood::stands_at))]
    pub fn place(&self) -> u64
        ensures { result ≡ place_of_last (all_tokens self.now.text.now) (length (terminals self.now)) }
    {
        self.token.start
    }

    /// Whether this mark of punctuation stands here.
    pub fn is_mark(&self, mark: u8) -> bool
        ensures { result ≡ has (TheMark mark) (here self.now) }
    {
        self.kind().is_mark(mark)
    }

    /// Whether this word stands here.
    pub fn is_word(&self, word: &[u8]) -> bool
        ensures { result ≡ has (TheWord word.now) (here self.now) }
    {
        match self.kind() {
            TokenKind::Word => self.bytes() == word,
            TokenKind::Number { .. }
            | TokenKind::Name
            | TokenKind::Quoted
            | TokenKind::Punct { .. }
            | TokenKind::End => false,
        }
    }

    /// Whether a quoted text stands here.
    pub fn is_quoted(&self) -> bool
        ensures { result ≡ has AQuoted (here self.now) }
    {
        match self.kind() {
            TokenKind::Quoted => true,
            TokenKind::Word
            | TokenKind::Number { .. }
            | TokenKind::Name
            | TokenKind::Punct { .. }
            | TokenKind::End => false,
        }
    }

    /// Whether a word stands here.
    pub fn is_any_word(&self) -> bool
        ensures { result ≡ has (WordBut []) (here self.now) }
    {
        match self.kind() {
            TokenKind::Word => true,
            TokenKind::Quoted
            | TokenKind::Number { .. }
            | TokenKind::Name
            | TokenKind::Punct { .. }
            | TokenKind::End => false,
        }
    }

    /// Whether the text ends here: then no token stands behind.
    #[tactic(auto, using(crate::proofs::Stood::end_is_last))]
    pub fn is_end(&self) -> bool
        ensures value { result ≡ has TheEnd (here self.now) }
        ensures last { result ≡ true → terminals self.now ≡ here self.now ∷ [] }
    {
        match self.kind() {
            TokenKind::End => true,
            TokenKind::Word
            | TokenKind::Number { .. }
            | TokenKind::Name
            | TokenKind::Quoted
            | TokenKind::Punct { .. } => false,
        }
    }

    /// Another token has to stand here.
    pub fn expected(&self) -> RuleFault
        ensures { result ≡ fault_at Expected self.now.text.now (terminals self.now) }
    {
        RuleFault::Expected(self.place())
    }

    /// Behind the token that stands here, which is not the end of the text.
    #[tactic(auto, using(crate::proofs::Stood::next_stands, crate::proofs::Stood::next_from))]
    pub fn next(&self) -> Point<'a>
        requires { is_end (here self.now).kind ≡ false }
        ensures text { result.text.now ≡ self.now.text.now }
        ensures rest { terminals self.now ≡ here self.now ∷ terminals result }
    {
        Point {
            text: self.text,
            token: token_from(self.text, self.token.end),
        }
    }
}
