//! The instructions of a block.

ghost use Rattle.std.specs.Prelude.{◌≡◌, ◌<◌, length};
ghost use Rattle.nir_text.specs.Reading.{Gives};
ghost use Rattle.nir_text.specs.Instrs.{alu_at, undef_at, input_at, load_at, output_at, store_at, definition_at, instr_at, begins_instr, instrs_at};
ghost use Rattle.nir_text.specs.Table.{naming};
ghost use Rattle.nir_text.specs.View.{sign, point};

use crate::consts::const_at;
use crate::fault::TextFault;
use crate::opcodes::opcode_at;
use crate::point::Point;
use crate::reading::{index_at, kind_at, mark_at, value_used_at};
use crate::sign::Sign;
use crate::sources::sources_at;
use crate::table::NameTable;
use nir_ir::{EffectId, Instr, Instrs, ValueId};
use std::alloc::Global;

/// An opcode, its kind and its sources.
#[tactic(auto, unfolding(crate::specs::Instrs::alu_at))]
fn alu_at<'a>(
    alloc: Global,
    names: &NameTable<'_>,
    value: ValueId,
    p: &Point<'a>,
) -> Result<(Instr, Point<'a>), TextFault>
    ensures { Gives (λ x. (x.0, point x.1)) result (alu_at (naming names.now) value (point p.now)) }
{
    let (op, at) = opcode_at(p)?;
    let (kind, at) = kind_at(&at)?;
    let (srcs, at) = sources_at(alloc, names, op, &at)?;
    Ok((
        Instr::Alu {
            value,
            op,
            kind,
            srcs,
        },
        at,
    ))
}

/// An undef behind its word.
#[tactic(auto, unfolding(crate::specs::Instrs::undef_at))]
fn undef_at<'a>(value: ValueId, p: &Point<'a>) -> Result<(Instr, Point<'a>), TextFault>
    ensures { Gives (λ x. (x.0, point x.1)) result (undef_at value (point p.now)) }
{
    let (kind, at) = kind_at(p)?;
    Ok((Instr::Undef { value, kind }, at))
}

/// An input behind its word.
#[tactic(auto, unfolding(crate::specs::Instrs::input_at))]
fn input_at<'a>(value: ValueId, p: &Point<'a>) -> Result<(Instr, Point<'a>), TextFault>
    ensures { Gives (λ x. (x.0, point x.1)) result (input_at value (point p.now)) }
{
    let (kind, at) = kind_at(p)?;
    let at = mark_at(&at, b'@')?;
    let (slot, at) = index_at(&at)?;
    Ok((Instr::Input { value, kind, slot }, at))
}

/// A load behind its word.
#[tactic(auto, unfolding(crate::specs::Instrs::load_at))]
fn load_at<'a>(
    names: &NameTable<'_>,
    value: ValueId,
    p: &Point<'a>,
) -> Result<(Instr, Point<'a>), TextFault>
    ensures { Gives (λ x. (x.0, point x.1)) result (load_at (naming names.now) value (point p.now)) }
{
    let (kind, at) = kind_at(p)?;
    let at = mark_at(&at, b'@')?;
    let (buffer, at) = index_at(&at)?;
    let comma = mark_at(&at, b',')?;
    let (offset, at) = value_used_at(names, &comma)?;
    Ok((
        Instr::LoadBuf {
            value,
            kind,
            buffer,
            offset,
        },
        at,
    ))
}

/// An output behind its word, which takes the number of an effect.
#[tactic(auto, unfolding(crate::specs::Instrs::output_at))]
fn output_at<'a>(names: &NameTable<'_>, p: &Point<'a>) -> Result<(Instr, Point<'a>), TextFault>
    requires { 0 < length (point p.now).rest }
    ensures { Gives (λ x. (x.0, point x.1)) result (output_at (naming names.now) (point p.now)) }
{
    let effect = EffectId(p.counts().effects);
    let at = mark_at(&p.with_effect(), b'@')?;
    let (slot, at) = index_at(&at)?;
    let comma = mark_at(&at, b',')?;
    let (src, at) = value_used_at(names, &comma)?;
    Ok((Instr::Output { effect, slot, src }, at))
}

/// A store behind its word, which takes the number of an effect.
#[tactic(auto, unfolding(crate::specs::Instrs::store_at))]
fn store_at<'a>(names: &NameTable<'_>, p: &Point<'a>) -> Result<(Instr, Point<'a>), TextFault>
    requires { 0 < length (point p.now).rest }
    ensures { Gives (λ x. (x.0, point x.1)) result (store_at (naming names.now) (point p.now)) }
{
    let effect = EffectId(p.counts().effects);
    let at = mark_at(&p.with_effect(), b'@')?;
    let (buffer, at) = index_at(&at)?;
    let comma = mark_at(&at, b',')?;
    let (offset, at) = value_used_at(names, &comma)?;
    let comma = mark_at(&at, b',')?;
    let (src, at) = value_used_at(names, &comma)?;
    Ok((
        Instr::StoreBuf {
            effect,
            buffer,
            offset,
            src,
        },
        at,
    ))
}

/// What stands behind the name of a value and `=`.
#[tactic(auto, unfolding(crate::specs::Instrs::definition_at))]
fn definition_at<'a>(
    alloc: Global,
    names: &NameTable<'_>,
    value: ValueId,
    p: &Point<'a>,
) -> Result<(Instr, Point<'a>), TextFault>
    ensures { Gives (λ x. (x.0, point x.1)) result (definition_at (naming names.now) value (point p.now)) }
{
    let sign = p.here();
    if sign.is_word(b"const") {
        return const_at(alloc, value, &p.next());
    }
    if sign.is_word(b"undef") {
        return undef_at(value, &p.next());
    }
    if sign.is_word(b"input") {
        return input_at(value, &p.next());
    }
    if sign.is_word(b"load") {
        return load_at(names, value, &p.next());
    }
    alu_at(alloc, names, value, p)
}

/// An output, a store, or the definition of a value.
#[tactic(auto, using(crate::proofs::Starts::starts), unfolding(crate::specs::Instrs::instr_at))]
fn instr_at<'a>(
    alloc: Global,
    names: &NameTable<'_>,
    p: &Point<'a>,
) -> Result<(Instr, Point<'a>), TextFault>
    ensures { Gives (λ x. (x.0, point x.1)) result (instr_at (naming names.now) (point p.now)) }
{
    let sign = p.here();
    if sign.is_word(b"output") {
        return output_at(names, p);
    }
    if sign.is_word(b"store") {
        return store_at(names, p);
    }
    let (value, at) = p.value_defined(names)?;
    let at = mark_at(&at, b'=')?;
    definition_at(alloc, names, value, &at)
}

/// What begins with a name, `output` or `store` is an instruction.
#[tactic(auto, unfolding(crate::specs::Instrs::begins_instr))]
fn begins_instr(first: &Sign<'_>) -> bool
    ensures { result ≡ begins_instr (sign first.now) }
{
    if first.is_name() {
        return true;
    }
    if first.is_word(b"output") {
        return true;
    }
    first.is_word(b"store")
}

/// The instructions of a block, up to what begins none.
pub fn instrs_at<'a>(
    alloc: Global,
    names: &NameTable<'_>,
    p: &Point<'a>,
) -> Result<(Instrs, Point<'a>), TextFault>
    ensures { Gives (λ x. (x.0, point x.1)) result (instrs_at (naming names.now) (length (point p.now).rest) (point p.now)) }
{
    let mut instrs = Instrs::new(alloc);
    let mut at = *p;
    let fuel = p.len();
    'instrs: for _turn in 0..fuel {
        if !begins_instr(&at.here()) {
            return Ok((instrs, at));
        }
        let (instr, after) = instr_at(alloc, names, &at)?;
        instrs.push(instr)?;
        at = after;
    }
    Err(TextFault::Expected(at.here().place))
}
