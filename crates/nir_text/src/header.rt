//! The declarations of a shader.

ghost use Rattle.std.specs.Prelude.{◌≡◌, length};
ghost use Rattle.nir_text.specs.Reading.{Gives, first_and, more_at, bracketed_at};
ghost use Rattle.nir_text.specs.Tree.{declared_kind_at, buffers_at};
ghost use Rattle.nir_text.specs.View.{point};

use crate::fault::TextFault;
use crate::point::Point;
use crate::reading::{kind_at, mark_at};
use nir_ir::{Kind, Kinds};
use nir_lex::TokenKind;
use std::alloc::Global;

/// How many kinds a declaration may have.
const MAX_SLOTS: usize = 64;

/// How many buffers a shader may have.
const MAX_BUFFERS: u32 = 16;

/// A kind of a declaration, behind so many others.
#[tactic(auto, unfolding(crate::specs::Tree::declared_kind_at))]
fn declared_kind_at<'a>(before: usize, p: &Point<'a>) -> Result<(Kind, Point<'a>), TextFault>
    ensures { Gives (λ x. (x.0, point x.1)) result (declared_kind_at before (point p.now)) }
{
    let (kind, at) = kind_at(p)?;
    if before >= MAX_SLOTS {
        return Err(TextFault::TooMany(p.here().place));
    }
    Ok((kind, at))
}

/// The kinds behind the first, up to the closing bracket.
fn more_kinds_at<'a>(
    alloc: Global,
    first: Kind,
    p: &Point<'a>,
) -> Result<(Kinds, Point<'a>), TextFault>
    ensures { Gives (λ x. (x.0, point x.1)) result (first_and first (more_at declared_kind_at 1 (length (point p.now).rest) (point p.now))) }
{
    let mut kinds = Kinds::new(alloc);
    kinds.push(first)?;
    let mut at = *p;
    let fuel = p.len();
    'kinds: for _turn in 0..fuel {
        if !at.here().is_mark(b',') {
            let close = mark_at(&at, b']')?;
            return Ok((kinds, close));
        }
        let (kind, after) = declared_kind_at(_turn + 1, &at.next())?;
        kinds.push(kind)?;
        at = after;
    }
    Err(TextFault::Expected(at.here().place))
}

/// The kinds of a declaration in brackets, or none.
#[tactic(auto, unfolding(crate::specs::Reading::bracketed_at))]
pub fn kinds_at<'a>(alloc: Global, p: &Point<'a>) -> Result<(Kinds, Point<'a>), TextFault>
    ensures { Gives (λ x. (x.0, point x.1)) result (bracketed_at declared_kind_at (point p.now)) }
{
    let begun = mark_at(p, b'[')?;
    if begun.here().is_mark(b']') {
        return Ok((Kinds::new(alloc), begun.next()));
    }
    let (first, at) = declared_kind_at(0, &begun)?;
    more_kinds_at(alloc, first, &at)
}

/// The number of buffers.
#[tactic(auto, unfolding(crate::specs::Tree::buffers_at))]
pub fn buffers_at<'a>(p: &Point<'a>) -> Result<(u32, Point<'a>), TextFault>
    ensures { Gives (λ x. (x.0, point x.1)) result (buffers_at (point p.now)) }
{
    let sign = p.here();
    let TokenKind::Number { value } = sign.kind else {
        return Err(TextFault::Expected(sign.place));
    };
    if value < 0 {
        return Err(TextFault::Expected(sign.place));
    }
    let Ok(buffers) = u32::try_from(value) else {
        return Err(TextFault::TooMany(sign.place));
    };
    if buffers > MAX_BUFFERS {
        return Err(TextFault::TooMany(sign.place));
    }
    Ok((buffers, p.next()))
}
