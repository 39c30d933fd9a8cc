//! The phis and the jump of a block.

ghost use Rattle.std.specs.Prelude.{◌≡◌, length};
ghost use Rattle.nir_text.specs.Reading.{Gives, first_and, more_at, bracketed_at};
ghost use Rattle.nir_text.specs.Instrs.{source_at, phi_at, begins_phi, phis_at, jump_at};
ghost use Rattle.nir_text.specs.Table.{naming};
ghost use Rattle.nir_text.specs.View.{point};

use crate::fault::TextFault;
use crate::point::Point;
use crate::reading::{block_used_at, kind_at, mark_at, value_used_at, word_at};
use crate::table::NameTable;
use nir_ir::{Jump, Phi, PhiSource, PhiSources, Phis};
use std::alloc::Global;

/// A source of a phi: a block, and the value that comes from it.
#[tactic(auto, unfolding(crate::specs::Instrs::source_at))]
fn source_at<'a>(names: &NameTable<'_>, p: &Point<'a>) -> Result<(PhiSource, Point<'a>), TextFault>
    ensures { Gives (λ x. (x.0, point x.1)) result (source_at (naming names.now) (point p.now)) }
{
    let (from, at) = block_used_at(names, p)?;
    let colon = mark_at(&at, b':')?;
    let (value, at) = value_used_at(names, &colon)?;
    Ok((PhiSource { from, value }, at))
}

/// The sources behind the first, up to the closing bracket.
fn more_sources_at<'a>(
    alloc: Global,
    names: &NameTable<'_>,
    first: PhiSource,
    p: &Point<'a>,
) -> Result<(PhiSources, Point<'a>), TextFault>
    ensures { Gives (λ x. (x.0, point x.1)) result (first_and first (more_at (λ k. source_at (naming names.now)) 1 (length (point p.now).rest) (point p.now))) }
{
    let mut sources = PhiSources::new(alloc);
    sources.push(first)?;
    let mut at = *p;
    let fuel = p.len();
    'sources: for _turn in 0..fuel {
        if !at.here().is_mark(b',') {
            let close = mark_at(&at, b']')?;
            return Ok((sources, close));
        }
        let (source, after) = source_at(names, &at.next())?;
        sources.push(source)?;
        at = after;
    }
    Err(TextFault::Expected(at.here().place))
}

/// The sources of a phi in brackets, or none.
#[tactic(auto, unfolding(crate::specs::Reading::bracketed_at))]
fn sources_at<'a>(
    alloc: Global,
    names: &NameTable<'_>,
    p: &Point<'a>,
) -> Result<(PhiSources, Point<'a>), TextFault>
    ensures { Gives (λ x. (x.0, point x.1)) result (bracketed_at (λ k. source_at (naming names.now)) (point p.now)) }
{
    let begun = mark_at(p, b'[')?;
    if begun.here().is_mark(b']') {
        return Ok((PhiSources::new(alloc), begun.next()));
    }
    let (first, at) = source_at(names, &begun)?;
    more_sources_at(alloc, names, first, &at)
}

/// A phi: its value, its kind, and its sources.
#[tactic(auto, unfolding(crate::specs::Instrs::phi_at))]
fn phi_at<'a>(
    alloc: Global,
    names: &NameTable<'_>,
    p: &Point<'a>,
) -> Result<(Phi, Point<'a>), TextFault>
    ensures { Gives (λ x. (x.0, point x.1)) result (phi_at (naming names.now) (point p.now)) }
{
    let (value, at) = p.value_defined(names)?;
    let at = mark_at(&at, b'=')?;
    let at = word_at(&at, b"phi")?;
    let (kind, at) = kind_at(&at)?;
    let (sources, at) = sources_at(alloc, names, &at)?;
    Ok((
        Phi {
            value,
            kind,
            sources,
        },
        at,
    ))
}

/// A name, `=` and the word `phi` begin a phi.
#[tactic(auto, unfolding(crate::specs::Instrs::begins_phi))]
fn begins_phi(p: &Point<'_>) -> bool
    ensures { result ≡ begins_phi (point p.now).rest }
{
    if !p.here().is_name() {
        return false;
    }
    let equals = p.next();
    if !equals.here().is_mark(b'=') {
        return false;
    }
    equals.next().here().is_word(b"phi")
}

/// The phis of a block, up to what begins none.
pub fn phis_at<'a>(
    alloc: Global,
    names: &NameTable<'_>,
    p: &Point<'a>,
) -> Result<(Phis, Point<'a>), TextFault>
    ensures { Gives (λ x. (x.0, point x.1)) result (phis_at (naming names.now) (length (point p.now).rest) (point p.now)) }
{
    let mut phis = Phis::new(alloc);
    let mut at = *p;
    let fuel = p.len();
    'phis: for _turn in 0..fuel {
        if !begins_phi(&at) {
            return Ok((phis, at));
        }
        let (phi, after) = phi_at(alloc, names, &at)?;
        phis.push(phi)?;
        at = after;
    }
    Err(TextFault::Expected(at.here().place))
}

/// `break`, `continue` or neither.
#[tactic(auto, unfolding(crate::specs::Instrs::jump_at))]
pub fn jump_at<'a>(p: &Point<'a>) -> Result<(Option<Jump>, Point<'a>), TextFault>
    ensures { Gives (λ x. (x.0, point x.1)) result (jump_at (point p.now)) }
{
    let sign = p.here();
    if sign.is_word(b"break") {
        return Ok((Some(Jump::Break), p.next()));
    }
    if sign.is_word(b"continue") {
        return Ok((Some(Jump::Continue), p.next()));
    }
    Ok((None, *p))
}
