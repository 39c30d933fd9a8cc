//! Whole shader texts.

ghost use Rattle.std.specs.Prelude.{◌≡◌, ◌^◌, ◌<◌, ◌≤◌, length, IfOk};
ghost use Rattle.nir_lex.specs.Reading.{read_tokens};
ghost use Rattle.nir_ir.specs.Shaped.{IsShaped};
ghost use Rattle.nir_text.specs.Parts.{parts};
ghost use Rattle.nir_text.specs.Reading.{Gives};
ghost use Rattle.nir_text.specs.Signs.{signs_of};
ghost use Rattle.nir_text.specs.Table.{naming};
ghost use Rattle.nir_text.specs.Tree.{shader_at, no_counts, lexed, read_signs, read_text};
ghost use Rattle.nir_text.specs.View.{point};
ghost use Rattle.nir_text.specs.Within.{AreWithin};

use crate::fault::TextFault;
use crate::header::{buffers_at, kinds_at};
use crate::naming::{first_unknown, naming_of};
use crate::parts::Parts;
use crate::point::Point;
use crate::reading::word_at;
use crate::sign::Sign;
use crate::table::NameTable;
use crate::tree::list_at;
use nir_ir::Shader;
use nir_lex::{LexFault, Token, Tokens, tokens};
use std::alloc::Global;

/// How many lists may stand inside one another.
const MAX_DEPTH: usize = 64;

/// A shader, to the end of its text.
#[tactic(auto, unfolding(crate::specs::Tree::shader_at, crate::specs::Tree::end_at, crate::specs::Reading::word_at))]
fn parts_at<'a>(
    alloc: Global,
    names: &NameTable<'_>,
    text: &'a [u8],
    tokens: &'a [Token],
) -> Result<(Parts, Point<'a>), TextFault>
    requires within { AreWithin (length text.now) tokens.now }
    requires few { length tokens.now ≤ 2 ^ 32 }
    ensures { Gives (λ x. (parts x.0, point x.1)) result (shader_at (naming names.now) (record { rest = signs_of text.now tokens.now; counts = no_counts })) }
{
    let sign = Sign::first(text, tokens);
    if !sign.is_word(b"shader") {
        return Err(TextFault::Expected(sign.place));
    }
    let at = Point::behind_first(text, tokens);
    let at = word_at(&at, b"inputs")?;
    let (inputs, at) = kinds_at(alloc, &at)?;
    let at = word_at(&at, b"outputs")?;
    let (outputs, at) = kinds_at(alloc, &at)?;
    let at = word_at(&at, b"buffers")?;
    let (buffers, at) = buffers_at(&at)?;
    let (body, at) = list_at(alloc, names, MAX_DEPTH, &at)?;
    let sign = at.here();
    if !sign.is_end() {
        return Err(TextFault::Expected(sign.place));
    }
    let next_value = at.counts().values;
    Ok((
        Parts {
            inputs,
            outputs,
            buffers,
            body,
            next_value,
        },
        at,
    ))
}

/// The shader of these tokens. A name that nothing defines comes after all else.
fn shader_of(alloc: Global, text: &[u8], tokens: &[Token]) -> Result<Shader, TextFault>
    requires within { AreWithin (length text.now) tokens.now }
    requires few { length tokens.now ≤ 2 ^ 32 }
    ensures exact { Gives (λ shader. shader) result (read_signs (signs_of text.now tokens.now)) }
    ensures few { IfOk result (λ shader. shader.next_value ≤ 16384) }
{
    let names = naming_of(alloc, text, tokens)?;
    let (parts, end) = parts_at(alloc, &names, text, tokens)?;
    match first_unknown(&names, end.counts(), text, tokens) {
        Some(place) => Err(TextFault::UnknownName(place)),
        None => Ok(parts.into_shader()),
    }
}

/// The tokens of a text.
fn tokens_of(alloc: Global, text: &[u8]) -> Result<Tokens, TextFault>
    requires { length text.now < 2 ^ 32 }
    ensures exact { Gives (λ list. list) result (lexed (read_tokens text.now)) }
    ensures within { IfOk result (λ list. AreWithin (length text.now) list) }
    ensures few { IfOk result (λ list. length list ≤ 2 ^ 32) }
{
    match tokens(alloc, text) {
        Ok(list) => Ok(list),
        Err(LexFault::OutOfMemory) => Err(TextFault::OutOfMemory),
        Err(LexFault::BadByte(place)) => Err(TextFault::Lex(LexFault::BadByte(place))),
        Err(LexFault::BadNumber(place)) => Err(TextFault::Lex(LexFault::BadNumber(place))),
    }
}

/// The shader that a text spells, or the first fault of the text: a fault of its tokens, else the
/// first token that breaks a rule of the grammar, else the first name that nothing defines.
/// `OutOfMemory` comes only for want of memory. A text defines at most 16,384 values.
pub fn read_shader(alloc: Global, text: &[u8]) -> Result<Shader, TextFault>
    requires { length text.now < 2 ^ 32 }
    ensures exact { Gives (λ shader. shader) result (read_text text.now) }
    ensures few { IfOk result (λ shader. shader.next_value ≤ 16384) }
{
    let list = tokens_of(alloc, text)?;
    shader_of(alloc, text, list.as_slice())
}
