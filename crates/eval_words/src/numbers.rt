//! Numbers in decimal, and bytes in hexadecimal, as words write them.

ghost use Rattle.std.specs.Prelude.{◌≡◌, ℕ, ◌+◌, ◌*◌, ◌<◌, ◌≤◌, true, ◌∷◌, is_some, length, IfOk};
ghost use Rattle.std.specs.Char.{digit_value, is_ascii_digit};
ghost use Rattle.std.specs.List.{list_all, prefix_len};
ghost use Rattle.std.specs.Str.Parse.{digits_value};
ghost use Rattle.nir_lex.specs.Numbers.{word_of};
ghost use Rattle.eval_words.specs.EvalWords.{behind_comma, byte_in_hex, bytes_in_hex, decimal_of, decimals_of, hex_of, is_no_comma, is_plain_decimal, pieces};

use nir_host::{Bytes, OutOfMemory};
use nir_ir::Comps;
use std::alloc::Global;

fn digit_value(byte: u8) -> u8
    ensures { result ≡ digit_value byte }
{
    match byte {
        b'0'..=b'9' => byte - b'0',
        b'A'..=b'Z' => byte - b'A' + 10,
        b'a'..=b'z' => byte - b'a' + 10,
        _ => 36,
    }
}

fn are_digits(text: &[u8]) -> bool
    ensures { result ≡ list_all is_ascii_digit text.now }
{
    for byte in text {
        if !byte.is_ascii_digit() {
            return false;
        }
    }
    true
}

/// `0`, or digits that do not begin with 0.
fn is_plain_decimal(text: &[u8]) -> bool
    ensures { result ≡ is_plain_decimal text.now }
{
    match text {
        [] => false,
        [first, rest @ ..] => {
            if !are_digits(text) {
                return false;
            }
            if *first != b'0' {
                return true;
            }
            rest.is_empty()
        }
    }
}

/// What one more digit makes of a value, None where 64 bits do not hold it.
fn with_digit(value: u64, digit: u8) -> Option<u64>
    ensures { result ≡ word_of (value * 10 + digit_value digit) }
{
    let shifted = value.checked_mul(10)?;
    shifted.checked_add(u64::from(digit_value(digit)))
}

/// The value of digits, None where 64 bits do not hold it.
#[tactic(auto, using(crate::proofs::WordLemmas::none_stays, crate::proofs::WordLemmas::word_same))]
fn digits_value(digits: &[u8]) -> Option<u64>
    ensures { result ≡ word_of (digits_value 10 digits.now) }
{
    let mut value = 0;
    for digit in digits {
        match with_digit(value, *digit) {
            Some(next) => value = next,
            None => return None,
        }
    }
    Some(value)
}

/// A decimal number below 2^64.
#[tactic(auto, unfolding(crate::specs::EvalWords::decimal_of))]
pub fn decimal(text: &[u8]) -> Option<u64>
    ensures { result ≡ decimal_of text.now }
{
    if !is_plain_decimal(text) {
        return None;
    }
    digits_value(text)
}

/// A text up to its first comma, and what stands behind that.
#[derive(Clone, Copy)]
struct Cut<'a> {
    piece: &'a [u8],
    more: bool,
    rest: &'a [u8],
}

/// How many bytes at the front are no comma.
fn comma_free(text: &[u8]) -> usize
    ensures value { result ≡ prefix_len is_no_comma text.now }
    ensures within { result ≤ length text.now }
{
    text.iter().take_while(|byte| **byte != b',').count()
}

/// Cuts a text at its first comma.
#[tactic(auto, using(crate::proofs::WordLemmas::pieces_cut, crate::proofs::WordLemmas::cut_behind))]
fn cut_at_comma(text: &[u8]) -> Cut<'_>
    ensures pieces { pieces text.now ≡ result.piece.now ∷ behind_comma result.more result.rest.now }
    ensures shorter { result.more ≡ true → length result.rest.now < length text.now }
{
    let (piece, behind) = text.split_at(comma_free(text));
    match behind {
        [] => Cut {
            piece,
            more: false,
            rest: behind,
        },
        [_comma, rest @ ..] => Cut {
            piece,
            more: true,
            rest,
        },
    }
}

/// The numbers between commas, None where a piece is none.
#[tactic(auto, using(crate::proofs::WordLemmas::behind_none, crate::proofs::WordLemmas::behind_more), unfolding(crate::specs::EvalWords::decimals_of))]
pub fn decimals(alloc: Global, text: &[u8]) -> Result<Option<Comps>, OutOfMemory>
    ensures { IfOk result (λ found. found ≡ decimals_of text.now) }
{
    let mut comps = Comps::new(alloc);
    let mut rest = text;
    'pieces: loop {
        let next = cut_at_comma(rest);
        let Some(value) = decimal(next.piece) else {
            return Ok(None);
        };
        comps.push(value)?;
        if !next.more {
            return Ok(Some(comps));
        }
        rest = next.rest;
    }
}

/// Whether there is a number between any two commas, before the first and behind the last.
#[tactic(auto, using(crate::proofs::WordLemmas::some_more), unfolding(crate::specs::EvalWords::decimals_of))]
pub fn are_decimals(text: &[u8]) -> bool
    ensures { result ≡ is_some (decimals_of text.now) }
{
    let mut rest = text;
    'pieces: loop {
        let next = cut_at_comma(rest);
        if decimal(next.piece).is_none() {
            return false;
        }
        if !next.more {
            return true;
        }
        rest = next.rest;
    }
}

/// The value of a hexadecimal digit.
fn hex_digit(byte: u8) -> Option<u8>
    ensures { result ≡ hex_of byte }
{
    let value = digit_value(byte);
    if value < 16 { Some(value) } else { None }
}

/// The byte of two hexadecimal digits.
fn hex_byte(high: u8, low: u8) -> Option<u8>
    ensures { result ≡ byte_in_hex high low }
{
    let high = hex_digit(high)?;
    let low = hex_digit(low)?;
    Some(high * 16 + low)
}

/// The bytes of which each is written by two hexadecimal digits, None where a digit is wanting or is none.
#[tactic(auto, using(crate::proofs::WordLemmas::behind_none, crate::proofs::WordLemmas::hex_more), unfolding(crate::specs::EvalWords::bytes_in_hex))]
pub fn bytes_in_hex(alloc: Global, text: &[u8]) -> Result<Option<Bytes>, OutOfMemory>
    ensures { IfOk result (λ found. found ≡ bytes_in_hex text.now) }
{
    let mut bytes = Bytes::new(alloc);
    let mut rest = text;
    'digits: loop {
        match rest {
            [] => return Ok(Some(bytes)),
            [_single] => return Ok(None),
            [high, low, behind @ ..] => {
                let Some(byte) = hex_byte(*high, *low) else {
                    return Ok(None);
                };
                bytes.push(byte)?;
                rest = behind;
            }
        }
    }
}

/// Whether each two digits write a byte in hexadecimal, and none is left over.
#[tactic(auto, using(crate::proofs::WordLemmas::some_more), unfolding(crate::specs::EvalWords::bytes_in_hex))]
pub fn are_hex(text: &[u8]) -> bool
    ensures { result ≡ is_some (bytes_in_hex text.now) }
{
    let mut rest = text;
    'digits: loop {
        match rest {
            [] => return true,
            [_single] => return false,
            [high, low, behind @ ..] => {
                if hex_byte(*high, *low).is_none() {
                    return false;
                }
                rest = behind;
            }
        }
    }
}
