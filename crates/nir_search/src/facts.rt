//! What the shader says of a view.

ghost use Rattle.std.specs.Prelude.{◌≡◌, ◌≤◌, ◌<◌, ◌^◌, IfSome, nat_eq, slice_index};
ghost use Rattle.std.specs.List.{list_all, AllByRecursion};
ghost use Rattle.std.specs.Option.{option_map, option_map_or};
ghost use Rattle.nir_ops.specs.Width.{width_bits};
ghost use Rattle.nir_ir.specs.Definitions.{const_at, const_of, kind_at, width_at};
ghost use Rattle.rule_term.specs.Conditions.{cond_holds};
ghost use Rattle.nir_search.specs.Match.{is_literal, is_taken, meets, same_op};
ghost use Rattle.nir_search.specs.Walks.{words_meet};

use crate::hit::Bind;
use crate::work::Work;
use nir_ir::{Instr, ValueId};
use nir_ops::{Op, Width};
use rule_term::{Cond, cond_holds, reduced};

/// The bit size of a value.
pub fn width_at(work: &Work, value: ValueId) -> Width
    ensures { result ≡ width_at work.now.shader.body value }
{
    match work.kind(value) {
        Some(kind) => kind.width,
        None => Width::W1,
    }
}

/// The components of a const.
fn const_of(instr: &Instr) -> Option<&[u64]>
    ensures { option_map (λ comps. comps.now) result ≡ const_of instr.now }
{
    match instr {
        Instr::Const { comps, .. } => Some(comps.as_slice()),
        Instr::Alu { .. }
        | Instr::Undef { .. }
        | Instr::Input { .. }
        | Instr::Output { .. }
        | Instr::LoadBuf { .. }
        | Instr::StoreBuf { .. } => None,
    }
}

/// The components of the const that writes the value.
fn const_at(work: &Work, value: ValueId) -> Option<&[u64]>
    ensures value { option_map (λ comps. comps.now) result ≡ const_at work.now.shader.body value }
    ensures words { IfSome result (λ comps. AllByRecursion (λ comp. comp < 2 ^ width_bits (width_at work.now.shader.body value)) comps.now) }
{
    // The proof learns that the shader is shaped.
    work.keeps_shape();
    match work.instr(value) {
        Some(instr) => const_of(instr),
        None => None,
    }
}

/// The component at a place, and 0 past the end.
fn component(comps: &[u64], at: u8) -> u64
    ensures { result ≡ slice_index comps.now at }
{
    let at = at as usize;
    if at < comps.len() { comps[at] } else { 0 }
}

/// Whether all components at those places are this word.
fn all_equal(comps: &[u64], places: &[u8], word: u64) -> bool
    ensures { result ≡ list_all (λ c. nat_eq (slice_index comps.now c) word) places.now }
{
    for at in places {
        if component(comps, *at) != word {
            return false;
        }
    }
    true
}

/// Whether the view is a const of this number, modulo 2 to its bit size.
pub fn is_literal(work: &Work, value: i128, view: &Bind) -> bool
    ensures { result ≡ is_literal work.now.shader.body value view.now }
{
    match const_at(work, view.value) {
        Some(comps) => all_equal(
            comps,
            view.comps.as_slice(),
            reduced(value, width_at(work, view.value)),
        ),
        None => false,
    }
}

pub fn same_op(a: Op, b: Op) -> bool
    ensures { result ≡ same_op a b }
{
    a == b
}

/// Whether all components at those places meet a condition on words of this size, below which they are.
fn all_meet(cond: Cond, width: Width, comps: &[u64], places: &[u8]) -> bool
    requires { AllByRecursion (λ comp. comp < 2 ^ width_bits width) comps.now }
    ensures { result ≡ list_all (λ c. cond_holds cond (width_bits width) (slice_index comps.now c)) places.now }
{
    for at in places {
        if !cond_holds(cond, width, component(comps, *at)) {
            return false;
        }
    }
    true
}

/// Whether the view is one of a const whose components meet a condition on words.
fn const_meets(work: &Work, view: &Bind, cond: Cond) -> bool
    ensures { result ≡ words_meet work.now.shader.body cond view.now }
{
    match const_at(work, view.value) {
        Some(comps) => all_meet(
            cond,
            width_at(work, view.value),
            comps,
            view.comps.as_slice(),
        ),
        None => false,
    }
}

/// Whether the view meets the condition.
fn meets(work: &Work, view: &Bind, cond: Cond) -> bool
    ensures { result ≡ meets work.now.shader.body view.now cond }
{
    match cond {
        Cond::NotConst => const_at(work, view.value).is_none(),
        Cond::UsedOnce => work.is_used_once(view.value),
        Cond::PosPow2
        | Cond::NegPow2
        | Cond::MultipleOf4
        | Cond::UpperHalfZero
        | Cond::LowerHalfZero => const_meets(work, view, cond),
    }
}

/// Whether the view is one that a variable takes.
pub fn is_taken(work: &Work, constant: bool, cond: Option<Cond>, view: &Bind) -> bool
    ensures { result ≡ is_taken work.now.shader.body constant cond view.now }
{
    if constant {
        if const_at(work, view.value).is_none() {
            return false;
        }
    }
    match cond {
        Some(cond) => meets(work, view, cond),
        None => true,
    }
}

/// How many components a value has; 0 where nothing defines it.
pub fn count_at(work: &Work, value: ValueId) -> u8
    ensures count { result ≡ option_map_or (λ kind. kind.count) (kind_at work.now.shader.body value) 0 }
    ensures few { result ≤ 16 }
{
    // The proof learns that the shader is shaped.
    work.keeps_shape();
    match work.kind(value) {
        Some(kind) => kind.count,
        None => 0,
    }
}
