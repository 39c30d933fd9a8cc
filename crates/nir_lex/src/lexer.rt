//! The tokens of a whole text.

ghost use Rattle.std.specs.Prelude.{◌≡◌, ◌-◌, [], ◌∷◌, ◌++◌, length, map, slice_get, OnOk, IfOk, IfErr, All};
ghost use Rattle.std.specs.List.Sorted.{IsStrictlyIncreasing};
ghost use Rattle.std.specs.Option.{option_map, option_to_list};
ghost use Rattle.nir_lex.specs.Reading.{Gives, read_tokens, end_token, token};
ghost use Rattle.nir_lex.specs.Laws.{AreTokensFrom, IsWithin, TokensAreInOrder};
ghost use Rattle.nir_lex.specs.Spelling.{SpelledIsRead, BlanksArePassed};

use crate::fault::LexFault;
use crate::piece::piece_at;
use crate::token::{Token, TokenKind, Tokens};
use std::alloc::Global;

fn add(tokens: &mut Tokens, token: Token) -> Result<(), LexFault>
    ensures ok { OnOk result (tokens.new ≡ tokens.old ++ token ∷ []) }
    ensures err { IfErr result (λ fault. fault ≡ LexFault.OutOfMemory) }
{
    match tokens.push(token) {
        Ok(()) => Ok(()),
        Err(_) => Err(LexFault::OutOfMemory),
    }
}

/// Adds a token from a place to another, where there is a kind.
fn add_kind(
    tokens: &mut Tokens,
    kind: Option<TokenKind>,
    start: u64,
    end: u64,
) -> Result<(), LexFault>
    ensures ok { OnOk result (tokens.new ≡ tokens.old ++ option_to_list (option_map (token start end) kind)) }
    ensures err { IfErr result (λ fault. fault ≡ LexFault.OutOfMemory) }
{
    match kind {
        Some(kind) => add(tokens, Token { kind, start, end }),
        None => Ok(()),
    }
}

#[tactic(auto, unfolding(crate::specs::Reading::read_tokens))]
fn all_tokens(alloc: Global, text: &[u8]) -> Result<Tokens, LexFault>
    ensures { Gives result (read_tokens text.now) }
{
    let mut list = Tokens::new(alloc);
    let mut place: u64 = 0;
    let mut rest = text;
    'pieces: while let Some((first, after)) = rest.split_first() {
        let piece = piece_at(place, *first, after)?;
        let end = place + 1 + piece.tail as u64;
        add_kind(&mut list, piece.kind, place, end)?;
        place = end;
        rest = &after[piece.tail..];
    }
    let end = Token {
        kind: TokenKind::End,
        start: place,
        end: place,
    };
    add(&mut list, end)?;
    Ok(list)
}

/// The tokens of a text in its order, the last of which is its end.
/// # Errors
/// `BadByte` and `BadNumber` stand at the first place at which the rules of tokens fail, and say
/// how. `OutOfMemory` says that there was no room for the tokens.
pub fn tokens(alloc: Global, text: &[u8]) -> Result<Tokens, LexFault>
    // These tokens, or this fault, unless memory runs out.
    ensures exact { Gives result (read_tokens text.now) }
    // Each token begins where the one before ended or behind that, and ends within the text.
    ensures in_order { IfOk result (AreTokensFrom 0 (length text.now)) }
    ensures within { IfOk result (All (IsWithin (length text.now))) }
    ensures rising { IfOk result (λ list. IsStrictlyIncreasing (map (λ token. token.start) list)) }
    ensures last { IfOk result (λ list. slice_get list (length list - 1) ≡ Some (end_token (length text.now))) }
{
    all_tokens(alloc, text)
}

/// The tokens of every text stand in it one behind the other, up to its end.
pub fn tokens_are_in_order()
    ensures { TokensAreInOrder }
{}

/// A token that is spelled in a text is read there, and reading goes on behind it.
pub fn spelled_is_read()
    ensures { SpelledIsRead }
{}

/// Reading passes over a blank.
pub fn blanks_are_passed()
    ensures { BlanksArePassed }
{}
