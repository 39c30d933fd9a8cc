//! The sources of ALU instructions.

ghost use Rattle.std.specs.Prelude.{◌≡◌, length};
ghost use Rattle.nir_ops.specs.Opcodes.{op_info};
ghost use Rattle.nir_text.specs.Reading.{Gives, separated_at};
ghost use Rattle.nir_text.specs.Instrs.{src_at};
ghost use Rattle.nir_text.specs.Table.{naming};
ghost use Rattle.nir_text.specs.View.{point};

use crate::fault::TextFault;
use crate::point::Point;
use crate::reading::{mark_at, value_used_at};
use crate::swizzle::{all_components, swizzle_of};
use crate::table::NameTable;
use nir_ir::{Src, Srcs};
use nir_ops::{Op, info};
use std::alloc::Global;

/// A source of an ALU instruction: a value, with a swizzle or all of its components in order.
#[tactic(auto, unfolding(crate::specs::Instrs::src_at))]
fn src_at<'a>(names: &NameTable<'_>, p: &Point<'a>) -> Result<(Src, Point<'a>), TextFault>
    ensures { Gives (λ x. (x.0, point x.1)) result (src_at (naming names.now) (point p.now)) }
{
    let (value, at) = value_used_at(names, p)?;
    if !at.here().is_mark(b'.') {
        let swizzle = all_components(names.count_of(value));
        return Ok((Src { value, swizzle }, at));
    }
    let letters = at.next();
    let sign = letters.here();
    let Some(word) = sign.word() else {
        return Err(TextFault::Expected(sign.place));
    };
    let Some(swizzle) = swizzle_of(word) else {
        return Err(TextFault::Expected(sign.place));
    };
    Ok((Src { value, swizzle }, letters.next()))
}

/// So many sources with commas between them.
fn srcs_at<'a>(
    alloc: Global,
    names: &NameTable<'_>,
    count: usize,
    p: &Point<'a>,
) -> Result<(Srcs, Point<'a>), TextFault>
    ensures { Gives (λ x. (x.0, point x.1)) result (separated_at (λ k. src_at (naming names.now)) count (point p.now)) }
{
    let mut srcs = Srcs::new(alloc);
    if count == 0 {
        return Ok((srcs, *p));
    }
    let (first, mut at) = src_at(names, p)?;
    srcs.push(first)?;
    'srcs: for _k in 1..count {
        let comma = mark_at(&at, b',')?;
        let (src, after) = src_at(names, &comma)?;
        srcs.push(src)?;
        at = after;
    }
    Ok((srcs, at))
}

/// As many sources as the opcode has.
pub fn sources_at<'a>(
    alloc: Global,
    names: &NameTable<'_>,
    op: Op,
    p: &Point<'a>,
) -> Result<(Srcs, Point<'a>), TextFault>
    ensures { Gives (λ x. (x.0, point x.1)) result (separated_at (λ k. src_at (naming names.now)) (length (op_info op).inputs) (point p.now)) }
{
    let count = source_count(op);
    srcs_at(alloc, names, count, p)
}

/// How many sources an opcode has.
fn source_count(op: Op) -> usize
    ensures { result ≡ length (op_info op).inputs }
{
    info(op).inputs.len()
}
