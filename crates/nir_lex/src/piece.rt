//! The piece of a text that begins at a byte: one token, or bytes that separate.

ghost use Rattle.std.specs.Prelude.{◌≡◌, ◌+◌, ◌<◌, ◌≤◌, ◌^◌, length};
ghost use Rattle.nir_lex.specs.Pieces.{number_piece, decimal, hexadecimal, negative, unsigned, name, quoted, piece_at};

use crate::class::{
    begins_with, begins_word, comment_run, digit_run, hex_digit_run, is_blank, is_punctuation,
    is_quote, quoted_run, starts_word, word_run,
};
use crate::fault::LexFault;
use crate::number;
use crate::token::TokenKind;

/// What begins at a byte.
#[derive(Clone, Copy)]
pub struct Piece {
    /// None where the bytes only separate.
    pub kind: Option<TokenKind>,
    /// How many bytes the piece takes behind its first.
    pub tail: usize,
}

fn token(kind: TokenKind, tail: usize) -> Piece
    ensures { result ≡ record { kind = Some kind; tail = tail } }
{
    Piece {
        kind: Some(kind),
        tail,
    }
}

fn gap(tail: usize) -> Piece
    ensures { result ≡ record { kind = None; tail = tail } }
{
    Piece { kind: None, tail }
}

#[tactic(auto, unfolding(crate::specs::Pieces::number_piece))]
fn number_piece(
    place: u64,
    value: Option<i128>,
    tail: usize,
    rest: &[u8],
) -> Result<Piece, LexFault>
    requires { tail ≤ length rest.now }
    ensures { result ≡ number_piece place value tail rest.now }
{
    match value {
        None => Err(LexFault::BadNumber(place)),
        Some(value) => {
            if begins_word(&rest[tail..]) {
                return Err(LexFault::BadNumber(place));
            }
            Ok(token(TokenKind::Number { value }, tail))
        }
    }
}

#[tactic(auto, unfolding(crate::specs::Pieces::decimal))]
fn decimal(place: u64, first: u8, rest: &[u8]) -> Result<Piece, LexFault>
    ensures { result ≡ decimal place first rest.now }
{
    let count = digit_run(rest);
    let value = number::positive(10, first, &rest[..count]);
    number_piece(place, value, count, rest)
}

#[tactic(auto, unfolding(crate::specs::Pieces::hexadecimal))]
fn hexadecimal(place: u64, rest: &[u8]) -> Result<Piece, LexFault>
    requires { 0 < length rest.now }
    ensures { result ≡ hexadecimal place rest.now }
{
    let digits = &rest[1..];
    let count = hex_digit_run(digits);
    if count == 0 {
        return Err(LexFault::BadNumber(place));
    }
    let value = number::positive(16, b'0', &digits[..count]);
    number_piece(place, value, 1 + count, rest)
}

#[tactic(auto, unfolding(crate::specs::Pieces::negative))]
fn negative(place: u64, rest: &[u8]) -> Result<Piece, LexFault>
    ensures { result ≡ negative place rest.now }
{
    let count = digit_run(rest);
    if count == 0 {
        return Err(LexFault::BadByte(place));
    }
    let value = number::negative(&rest[..count]);
    number_piece(place, value, count, rest)
}

#[tactic(auto, unfolding(crate::specs::Pieces::unsigned))]
fn unsigned(place: u64, first: u8, rest: &[u8]) -> Result<Piece, LexFault>
    ensures { result ≡ unsigned place first rest.now }
{
    if first == b'0' && begins_with(b'x', rest) {
        return hexadecimal(place, rest);
    }
    decimal(place, first, rest)
}

#[tactic(auto, unfolding(crate::specs::Pieces::name))]
fn name(place: u64, rest: &[u8]) -> Result<Piece, LexFault>
    ensures { result ≡ name place rest.now }
{
    let letters = word_run(rest);
    if letters == 0 {
        return Err(LexFault::BadByte(place));
    }
    Ok(token(TokenKind::Name, letters))
}

#[tactic(auto, unfolding(crate::specs::Pieces::quoted))]
fn quoted(place: u64, quote: u8, rest: &[u8]) -> Result<Piece, LexFault>
    requires { place + length rest.now + 1 < 2 ^ 64 }
    ensures { result ≡ quoted place quote rest.now }
{
    let count = quoted_run(quote, rest);
    if begins_with(quote, &rest[count..]) {
        return Ok(token(TokenKind::Quoted, count + 1));
    }
    Err(LexFault::BadByte(place + 1 + count as u64))
}

/// The piece that begins at `place` with `first`, before `rest`.
#[tactic(auto, unfolding(crate::specs::Pieces::piece_at))]
pub fn piece_at(place: u64, first: u8, rest: &[u8]) -> Result<Piece, LexFault>
    requires { place + length rest.now + 1 < 2 ^ 64 }
    ensures { result ≡ piece_at place first rest.now }
{
    if is_blank(first) {
        return Ok(gap(0));
    }
    if first == b'#' {
        return Ok(gap(comment_run(rest)));
    }
    if starts_word(first) {
        return Ok(token(TokenKind::Word, word_run(rest)));
    }
    if first.is_ascii_digit() {
        return unsigned(place, first, rest);
    }
    if first == b'-' {
        return negative(place, rest);
    }
    if first == b'%' {
        return name(place, rest);
    }
    if is_quote(first) {
        return quoted(place, first, rest);
    }
    if is_punctuation(first) {
        return Ok(token(TokenKind::Punct { byte: first }, 0));
    }
    Err(LexFault::BadByte(place))
}
