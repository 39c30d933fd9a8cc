//! The walk of a match: along the search side of a rule, and along what the shader computes.

ghost use Rattle.std.specs.Prelude.{◌≡◌, ◌≤◌, false, [], ◌∷◌, length, List, map, None, Option};
ghost use Rattle.std.specs.Option.{option_map};
ghost use Rattle.rule_term.specs.Terms.{terms_of, Nil, VarThen, LitThen, AppThen};
ghost use Rattle.nir_ir.specs.Definitions.{alu_at};
ghost use Rattle.nir_search.specs.Match.{child, has_op, swapped};
ghost use Rattle.nir_search.specs.Walks.{IsSources, NeverMatches, Walks};
ghost use Rattle.nir_search.specs.declared.hit.Bind as bind;

use crate::bound::Bound;
use crate::facts::{is_literal, is_taken, same_op};
use crate::hit::Bind;
use crate::view::child_at;
use crate::work::Work;
use nir_ir::{Instr, Src, ValueId};
use nir_ops::Op;
use rule_term::{Cond, Term};
use rule_variants::{bits_left, is_swapped};

/// Whether an instruction of this opcode writes the value.
fn is_written_by(work: &Work, value: ValueId, op: Op) -> bool
    ensures { result ≡ has_op op (alu_at work.now.shader.body value) }
{
    match work.instr(value) {
        Some(Instr::Alu { op: found, .. }) => same_op(*found, op),
        Some(
            Instr::Const { .. }
            | Instr::Undef { .. }
            | Instr::Input { .. }
            | Instr::Output { .. }
            | Instr::LoadBuf { .. }
            | Instr::StoreBuf { .. },
        )
        | None => false,
    }
}

/// False only where no view of the value matches the term, as its root says alone: an opcode that does not write the value.
pub fn may_match(work: &Work, term: &Term, value: ValueId) -> bool
    ensures { result ≡ false → NeverMatches work.now.shader.body (terms_of (term.now ∷ [])) value }
{
    match term {
        Term::Var { .. } => true,
        Term::Lit { .. } => true,
        Term::App { op, .. } => is_written_by(work, value, *op),
    }
}

/// Matches a variable with a view.
fn match_var(
    work: &Work,
    var: u32,
    constant: bool,
    cond: Option<Cond>,
    view: Bind,
    bits: u32,
    bound: &mut Bound,
) -> Option<u32>
    ensures { Walks work.now.shader.body (VarThen var constant None cond Nil) bits (view ∷ []) bound.old result bound.new }
{
    if !is_taken(work, constant, cond, &view) {
        return None;
    }
    if !bound.bind(var, view) {
        return None;
    }
    Some(bits)
}

/// Matches a number with a view. It binds nothing.
fn match_lit(work: &Work, value: i128, view: Bind, bits: u32, bound: &Bound) -> Option<u32>
    ensures { Walks work.now.shader.body (LitThen value false Nil) bits (view ∷ []) bound.now result bound.now }
{
    let _ = bound;
    if !is_literal(work, value, &view) {
        return None;
    }
    Some(bits)
}

/// Matches a term with a view.
#[cycle(matching)]
pub fn match_term(work: &Work, term: &Term, view: Bind, bits: u32, bound: &mut Bound) -> Option<u32>
    ensures { Walks work.now.shader.body (terms_of (term.now ∷ [])) bits (view ∷ []) bound.old result bound.new }
{
    match term {
        Term::Var {
            var,
            constant,
            cond,
            ..
        } => match_var(work, *var, *constant, *cond, view, bits, bound),
        Term::Lit { value, .. } => match_lit(work, *value, view, bits, bound),
        Term::App { op, once, args, .. } => {
            match_app(work, *op, *once, args.as_slice(), view, bits, bound)
        }
    }
}

/// Matches an opcode over its sources with a view.
#[cycle(matching)]
fn match_app(
    work: &Work,
    op: Op,
    once: bool,
    args: &[Term],
    view: Bind,
    bits: u32,
    bound: &mut Bound,
) -> Option<u32>
    ensures { Walks work.now.shader.body (AppThen op None once (terms_of args.now) Nil) bits (view ∷ []) bound.old result bound.new }
{
    let srcs = sources_of(work, op, once, &view)?;
    match_args(
        work,
        args,
        view.comps.as_slice(),
        is_swapped(op, bits),
        srcs,
        bits_left(op, bits),
        bound,
    )
}

/// The sources of the instruction that writes the viewed value, where it is of this opcode and, where that is asked, has one use.
fn sources_of<'a>(work: &'a Work, op: Op, once: bool, view: &Bind) -> Option<&'a [Src]>
    ensures { IsSources work.now.shader.body op once view.now (option_map (λ srcs. srcs.now) result) }
{
    let Some(
        Instr::Alu {
            op: found,
            srcs,
            ..
        },
    ) = work.instr(view.value)
    else {
        return None;
    };
    if !same_op(*found, op) {
        return None;
    }
    if !once {
        return Some(srcs.as_slice());
    }
    if work.is_used_once(view.value) {
        Some(srcs.as_slice())
    } else {
        None
    }
}

/// Matches the sources of an opcode, as the rule has them, with the sources of an instruction, of which these components are viewed.
#[cycle(matching)]
fn match_args(
    work: &Work,
    args: &[Term],
    comps: &[u8],
    flag: bool,
    srcs: &[Src],
    bits: u32,
    bound: &mut Bound,
) -> Option<u32>
    requires { length comps.now ≤ 16 }
    ensures { Walks work.now.shader.body (terms_of args.now) bits (map (child comps.now) (swapped flag srcs.now)) bound.old result bound.new }
{
    let mut bits = bits;
    for (at, arg) in args.iter().enumerate() {
        let view = child_at(comps, flag, srcs, at);
        match match_term(work, arg, view, bits, bound) {
            Some(left) => bits = left,
            None => return None,
        }
    }
    Some(bits)
}
