//! Consts and their components.

ghost use Rattle.std.specs.Prelude.{◌≡◌, ◌+◌, ◌-◌, ◌^◌};
ghost use Rattle.nir_ops.specs.Width.{width_bits};
ghost use Rattle.nir_text.specs.Reading.{Gives, separated_at};
ghost use Rattle.nir_text.specs.Instrs.{component_of, component_at, const_at};
ghost use Rattle.nir_text.specs.View.{point};

use crate::fault::TextFault;
use crate::point::Point;
use crate::reading::{kind_at, mark_at};
use nir_ir::{Comps, Instr, Kind, ValueId};
use nir_lex::TokenKind;
use nir_ops::Width;
use std::alloc::Global;

/// The greatest word of a width, and its half: how far below 0 a component may be written.
fn limits(width: Width) -> (u64, u64)
    ensures { (result.0 + 1 ≡ 2 ^ width_bits width) × (result.1 ≡ 2 ^ (width_bits width - 1)) }
{
    match width {
        Width::W1 => (1, 1),
        Width::W8 => (0xFF, 0x80),
        Width::W16 => (0xFFFF, 0x8000),
        Width::W32 => (0xFFFF_FFFF, 0x8000_0000),
        Width::W64 => (0xFFFF_FFFF_FFFF_FFFF, 0x8000_0000_0000_0000),
    }
}

/// A number as a word of a width. One below 0 counts from 2^width.
fn component_of(width: Width, value: i128) -> Option<u64>
    ensures { result ≡ component_of (width_bits width) value }
{
    let (most, half) = limits(width);
    if value >= 0 {
        let Ok(word) = u64::try_from(value) else {
            return None;
        };
        if word <= most { Some(word) } else { None }
    } else {
        let Ok(below) = u64::try_from(-(value + 1)) else {
            return None;
        };
        if below < half {
            Some(most - below)
        } else {
            None
        }
    }
}

/// A component of a const of this kind.
#[tactic(auto, unfolding(crate::specs::Instrs::component_at))]
fn component_at<'a>(kind: Kind, p: &Point<'a>) -> Result<(u64, Point<'a>), TextFault>
    ensures { Gives (λ x. (x.0, point x.1)) result (component_at kind (point p.now)) }
{
    let sign = p.here();
    let TokenKind::Number { value } = sign.kind else {
        return Err(TextFault::Expected(sign.place));
    };
    let Some(component) = component_of(kind.width, value) else {
        return Err(TextFault::Expected(sign.place));
    };
    Ok((component, p.next()))
}

/// So many components with commas between them.
fn components_at<'a>(
    alloc: Global,
    kind: Kind,
    p: &Point<'a>,
) -> Result<(Comps, Point<'a>), TextFault>
    ensures { Gives (λ x. (x.0, point x.1)) result (separated_at (λ k. component_at kind) kind.count (point p.now)) }
{
    let mut comps = Comps::new(alloc);
    if kind.count == 0 {
        return Ok((comps, *p));
    }
    let (first, mut at) = component_at(kind, p)?;
    comps.push(first)?;
    'comps: for _k in 1..kind.count {
        let comma = mark_at(&at, b',')?;
        let (component, after) = component_at(kind, &comma)?;
        comps.push(component)?;
        at = after;
    }
    Ok((comps, at))
}

/// A const behind its word.
#[tactic(auto, unfolding(crate::specs::Instrs::const_at))]
pub fn const_at<'a>(
    alloc: Global,
    value: ValueId,
    p: &Point<'a>,
) -> Result<(Instr, Point<'a>), TextFault>
    ensures { Gives (λ x. (x.0, point x.1)) result (const_at value (point p.now)) }
{
    let (kind, at) = kind_at(p)?;
    let begun = mark_at(&at, b'(')?;
    let (comps, at) = components_at(alloc, kind, &begun)?;
    let close = mark_at(&at, b')')?;
    Ok((Instr::Const { value, kind, comps }, close))
}
