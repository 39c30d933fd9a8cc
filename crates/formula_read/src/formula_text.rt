//! The terminals of a formula over options, before its grammar.

ghost use Rattle.std.specs.Prelude.{◌≡◌, ◌≤◌, ◌+◌, ◌++◌, length, take, drop, Some, None, IfOk, IfSome, OnOk, IsTrue, if◌then◌else◌};
ghost use Rattle.std.specs.List.{prefix_len};
ghost use Rattle.std.specs.Option.{option_map, option_to_list};
ghost use Rattle.nir_lex.specs.Classes.{begins, is_in_word, starts_word};
ghost use Rattle.rule_spelling.specs.Formula.{is_option, name_size, option, starts_with, terminals_from};
ghost use Rattle.formula_read.specs.Formulas.{begun, piece_of, terminals};

use nir_host::{OutOfMemory, Seq};
use std::alloc::Global;

/// A terminal of a formula.
#[derive(Clone, Copy)]
pub enum Sign<'a> {
    Not,
    Open,
    Close,
    And,
    Or,
    Has { name: &'a [u8] },
}

/// A terminal or a space, and how many bytes it takes.
#[derive(Clone, Copy)]
pub struct Piece<'a> {
    pub sign: Option<Sign<'a>>,
    pub size: usize,
}

/// What stands before the name of an option.
const PREFIX: &[u8] = b"options->";

#[tactic(auto, unfolding(nir_lex::specs::Classes::starts_word))]
fn begins_word(text: &[u8]) -> bool
    ensures { result ≡ begins starts_word text.now }
{
    match text {
        [byte, ..] => byte.is_ascii_alphabetic() || *byte == b'_',
        [] => false,
    }
}

#[tactic(auto, unfolding(nir_lex::specs::Classes::is_in_word))]
fn is_in_word(byte: u8) -> bool
    ensures { result ≡ is_in_word byte }
{
    byte.is_ascii_alphanumeric() || byte == b'_'
}

/// How many bytes at the front may stand in a word.
fn word_run(text: &[u8]) -> usize
    ensures value { result ≡ prefix_len is_in_word text.now }
    ensures within { result ≤ length text.now }
{
    text.iter().take_while(|byte| is_in_word(**byte)).count()
}

/// Whether the text begins so.
fn begins_with(text: &[u8], front: &[u8]) -> bool
    ensures value { result ≡ starts_with front.now text.now }
    ensures within { IsTrue result → length front.now ≤ length text.now }
{
    text.starts_with(front)
}

/// A mark of so many bytes.
fn mark(sign: Sign<'_>, size: usize) -> Option<Piece<'_>>
    ensures { result ≡ Some (record { sign = Some sign.entry; size = size }) }
{
    Some(Piece {
        sign: Some(sign),
        size,
    })
}

/// An option, None where none stands at the front.
fn option_piece<'a>(text: &'a [u8]) -> Option<Piece<'a>>
    ensures value { option_map begun result ≡ (if is_option text.now then Some (record { sign = Some (option (take (name_size text.now) (drop 9 text.now))); size = 9 + name_size text.now }) else None) }
    ensures within { IfSome result (λ piece. (1 ≤ piece.size) × (piece.size ≤ length text.now)) }
{
    if !begins_with(text, PREFIX) {
        return None;
    }
    let behind = &text[9..];
    if !begins_word(behind) {
        return None;
    }
    let count = word_run(behind);
    Some(Piece {
        sign: Some(Sign::Has {
            name: &behind[..count],
        }),
        size: 9 + count,
    })
}

/// What stands at the front of a text that begins with this byte, None where the byte belongs to nothing.
#[tactic(auto, unfolding(crate::specs::Formulas::piece_of))]
fn piece_of<'a>(byte: u8, text: &'a [u8]) -> Option<Piece<'a>>
    requires { 1 ≤ length text.now }
    ensures value { option_map begun result ≡ piece_of byte text.now }
    ensures within { IfSome result (λ piece. (1 ≤ piece.size) × (piece.size ≤ length text.now)) }
{
    if byte == b' ' {
        return Some(Piece {
            sign: None,
            size: 1,
        });
    }
    if byte == b'!' {
        return mark(Sign::Not, 1);
    }
    if byte == b'(' {
        return mark(Sign::Open, 1);
    }
    if byte == b')' {
        return mark(Sign::Close, 1);
    }
    if begins_with(text, b"&&") {
        return mark(Sign::And, 2);
    }
    if begins_with(text, b"||") {
        return mark(Sign::Or, 2);
    }
    option_piece(text)
}

/// Adds a terminal, where there is one.
fn add<'a>(signs: &mut Seq<Sign<'a>>, sign: Option<Sign<'a>>) -> Result<(), OutOfMemory>
    ensures { OnOk result (signs.new ≡ signs.old ++ option_to_list sign.entry) }
{
    match sign {
        Some(sign) => signs.push(sign),
        None => Ok(()),
    }
}

/// The terminals of a text, None where a byte of it belongs to none.
/// # Errors
/// `OutOfMemory` says that there was no room for them.
pub fn signs<'a>(alloc: Global, text: &'a [u8]) -> Result<Option<Seq<Sign<'a>>>, OutOfMemory>
    ensures { IfOk result (λ signs. option_map terminals signs ≡ terminals_from 0 text.now) }
{
    let mut signs = Seq::new(alloc);
    let mut rest = text;
    'pieces: while let Some((first, _after)) = rest.split_first() {
        let Some(piece) = piece_of(*first, rest) else {
            return Ok(None);
        };
        add(&mut signs, piece.sign)?;
        rest = &rest[piece.size..];
    }
    Ok(Some(signs))
}
