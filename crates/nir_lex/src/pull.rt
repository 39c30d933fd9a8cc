//! The tokens of a text one by one, without memory: whether it has tokens, and then each of them.

ghost use Rattle.std.specs.Prelude.{◌≡◌, ◌≤◌, length, IfOk, IfSome};
ghost use Rattle.nir_lex.specs.Reading.{read_tokens, end_token};
ghost use Rattle.nir_lex.specs.From.{tokens_at, IsFirstFrom, IsOfBytes, fault_of, TokensAreFromStart};

use crate::fault::LexFault;
use crate::piece::piece_at;
use crate::token::{Token, TokenKind};

/// The first place at which the rules of tokens fail, and how: `BadByte` or `BadNumber`. None where
/// the text has tokens.
#[tactic(auto, unfolding(crate::specs::Reading::read_tokens))]
pub fn first_fault(text: &[u8]) -> Option<LexFault>
    ensures exact { result ≡ fault_of (read_tokens text.now) }
    ensures bytes { IfSome result IsOfBytes }
{
    let mut place: u64 = 0;
    let mut rest = text;
    'pieces: while let Some((first, after)) = rest.split_first() {
        match piece_at(place, *first, after) {
            Ok(piece) => {
                place = place + 1 + piece.tail as u64;
                rest = &after[piece.tail..];
            }
            Err(fault) => return Some(fault),
        }
    }
    None
}

/// The first token from a place of the text on, in bytes from its start, where what stands there
/// has tokens; those behind it are the tokens from its end on, and there are none behind the end.
pub fn token_from(text: &[u8], place: u64) -> Token
    requires { place ≤ length text.now }
    ensures { IfOk (tokens_at text.now place) (λ _tokens. IsFirstFrom text.now place result) }
{
    let mut start = place;
    let mut rest = &text[place as usize..];
    'gaps: while let Some((first, after)) = rest.split_first() {
        match piece_at(start, *first, after) {
            Ok(piece) => {
                let end = start + 1 + piece.tail as u64;
                if let Some(kind) = piece.kind {
                    return Token { kind, start, end };
                }
                start = end;
                rest = &after[piece.tail..];
            }
            Err(_) => return end_at(start),
        }
    }
    end_at(start)
}

fn end_at(place: u64) -> Token
    ensures { result ≡ end_token place }
{
    Token {
        kind: TokenKind::End,
        start: place,
        end: place,
    }
}

/// The tokens of a text are those from its start on.
pub fn tokens_are_from_start()
    ensures { TokensAreFromStart }
{}
