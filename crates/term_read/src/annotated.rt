//! The texts that stand for variables and opcodes.

ghost use Rattle.std.specs.Prelude.{◌≡◌, ◌≤◌, length};
ghost use Rattle.std.specs.Char.{is_ascii_alphabetic};
ghost use Rattle.std.specs.List.{prefix_len};
ghost use Rattle.std.specs.Option.{option_map};
ghost use Rattle.nir_lex.specs.Classes.{begins};
ghost use Rattle.rule_spelling.specs.Annotated.{is_before_size, is_before_cond, is_excluded, unquoted, name_and_rest, quoted_annotated, quoted_says, says};
ghost use Rattle.term_read.specs.Gives.{Gives};
ghost use Rattle.term_read.specs.Source.{told_at};
ghost use Rattle.term_read.specs.Views.{annotated, here, terminals};

use crate::fault::RuleFault;
use crate::point::Point;
use crate::suffix::{cond_written, size_written};
use nir_lex::{TokenKind, is_word};
use nir_ops::Width;
use rule_term::Cond;

/// A name, and what is asked of what it stands for.
#[derive(Clone, Copy)]
pub struct Annotated<'a> {
    pub constant: bool,
    pub name: &'a [u8],
    pub size: Option<Width>,
    pub cond: Option<Cond>,
}

/// What the word or the quoted text that stands here says.
#[tactic(auto, unfolding(rule_spelling::specs::Annotated::says))]
pub fn said<'a>(p: &Point<'a>) -> Result<Annotated<'a>, RuleFault>
    ensures { Gives annotated result (told_at p.now.text.now (terminals p.now) (says (here p.now))) }
{
    match p.kind() {
        TokenKind::Word => Ok(Annotated {
            constant: false,
            name: p.bytes(),
            size: None,
            cond: None,
        }),
        TokenKind::Quoted => quoted_said(p),
        TokenKind::Number { .. } | TokenKind::Name | TokenKind::Punct { .. } | TokenKind::End => {
            Err(p.expected())
        }
    }
}

/// What the quoted text that stands here says.
fn quoted_said<'a>(p: &Point<'a>) -> Result<Annotated<'a>, RuleFault>
    ensures { Gives annotated result (told_at p.now.text.now (terminals p.now) (quoted_says (unquoted (here p.now).text))) }
{
    let text = unquoted(p.bytes());
    if is_excluded(text) {
        return Err(RuleFault::Excluded(p.place()));
    }
    match quoted(text) {
        Some(word) => Ok(word),
        None => Err(p.expected()),
    }
}

/// A text without its quotes.
pub fn unquoted(text: &[u8]) -> &[u8]
    ensures { result.now ≡ unquoted text.now }
{
    match text {
        [] => text,
        [_, rest @ ..] => &rest[..rest.len().saturating_sub(1)],
    }
}

/// Whether a text has what Mesa's rules may have and these not: `~`, `!`, or the word of a type behind `@`.
fn is_excluded(text: &[u8]) -> bool
    ensures { result ≡ is_excluded text.now }
{
    let mut rest = text;
    'bytes: while let Some((byte, behind)) = rest.split_first() {
        if *byte == b'~' {
            return true;
        }
        if *byte == b'!' {
            return true;
        }
        if *byte == b'@' && begins_letter(behind) {
            return true;
        }
        rest = behind;
    }
    false
}

fn begins_letter(text: &[u8]) -> bool
    ensures { result ≡ begins is_ascii_alphabetic text.now }
{
    match text {
        [byte, ..] => byte.is_ascii_alphabetic(),
        [] => false,
    }
}

/// What a text in quotes says. `#` asks for a constant.
#[tactic(auto, unfolding(rule_spelling::specs::Annotated::quoted_annotated))]
fn quoted(text: &[u8]) -> Option<Annotated<'_>>
    ensures { option_map annotated result ≡ quoted_annotated text.now }
{
    match text {
        [b'#', rest @ ..] => name_and_rest(true, rest),
        [] | [_, ..] => name_and_rest(false, text),
    }
}

/// A name, a size and a condition.
#[tactic(auto, unfolding(rule_spelling::specs::Annotated::name_and_rest))]
fn name_and_rest(constant: bool, text: &[u8]) -> Option<Annotated<'_>>
    ensures { option_map annotated result ≡ name_and_rest constant text.now }
{
    let end = name_run(text);
    let name = &text[..end];
    let tail = &text[end..];
    let end = size_run(tail);
    let Some(size) = size_written(&tail[..end]) else {
        return None;
    };
    let Some(cond) = cond_written(&tail[end..]) else {
        return None;
    };
    if !is_word(name) {
        return None;
    }
    Some(Annotated {
        constant,
        name,
        size,
        cond,
    })
}

/// How many bytes at the front stand before a size and a condition.
fn name_run(text: &[u8]) -> usize
    ensures value { result ≡ prefix_len is_before_size text.now }
    ensures within { result ≤ length text.now }
{
    text.iter()
        .take_while(|byte| **byte != b'@' && **byte != b'(')
        .count()
}

/// How many bytes at the front stand before a condition.
fn size_run(text: &[u8]) -> usize
    ensures value { result ≡ prefix_len is_before_cond text.now }
    ensures within { result ≤ length text.now }
{
    text.iter().take_while(|byte| **byte != b'(').count()
}
