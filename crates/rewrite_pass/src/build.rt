//! The instructions of a replacement: what a rule puts in the place of the instruction at which it matches.

ghost use Rattle.std.specs.Prelude.{◌≡◌, ◌+◌, ◌<◌, ◌≤◌, ◌^◌, [], ◌∷◌, ◌++◌, drop, length, replicate, suc, IfOk};
ghost use Rattle.std.specs.List.{range_with_len};
ghost use Rattle.rule_term.specs.Terms.{terms_of};
ghost use Rattle.rule_term.specs.Typings.{size_of};
ghost use Rattle.nir_search.specs.Match.{front};
ghost use Rattle.nir_search.specs.Put.{bound_to, const_instr, root_of, view_source, whole_source};
ghost use Rattle.rewrite_pass.specs.Building.{Builds};

use nir_host::OutOfMemory;
use nir_ir::{Comps, Instr, Instrs, Kind, Src, Srcs, Swizzle, ValueId};
use nir_ops::{Op, Width};
use nir_search::Bind;
use rule_term::{Term, reduced};
use std::alloc::Global;

/// What was built so far: instructions in postorder, of how many nodes, and the next fresh number.
#[derive(Drop)]
pub(crate) struct Building {
    pub(crate) instrs: Instrs,
    pub(crate) nodes: usize,
    pub(crate) next: u32,
}

/// The view as a source.
fn view_source(view: &Bind) -> Src
    ensures { result ≡ view_source view.now }
{
    let mut swizzle = Swizzle::new();
    for entry in view.comps.as_slice() {
        swizzle.push(*entry);
    }
    Src {
        value: view.value,
        swizzle,
    }
}

/// What a variable is bound to, as a source; nothing of value 0 where it is none of them.
fn bound_source(subst: &[Bind], var: u32) -> Src
    ensures { result ≡ view_source (bound_to subst.now var) }
{
    match subst.get(var as usize) {
        Some(view) => view_source(view),
        None => Src {
            value: ValueId(0),
            swizzle: Swizzle::new(),
        },
    }
}

/// All of at most 16 components of a value, as a source.
#[tactic(auto, using(crate::proofs::BuildLemmas::range_next))]
fn whole_source(value: ValueId, count: u8) -> Src
    requires { count ≤ 16 }
    ensures { result ≡ whole_source value count }
{
    let mut swizzle = Swizzle::new();
    for at in 0..count {
        swizzle.push(at);
    }
    Src { value, swizzle }
}

/// So many components, all equal.
fn equal_components(alloc: Global, word: u64, count: u8) -> Result<Comps, OutOfMemory>
    ensures { IfOk result (λ comps. comps ≡ replicate count word) }
{
    let mut comps = Comps::new(alloc);
    for _at in 0..count {
        comps.push(word)?;
    }
    Ok(comps)
}

/// A number in each component.
fn const_instr(
    alloc: Global,
    value: ValueId,
    kind: Kind,
    number: i128,
) -> Result<Instr, OutOfMemory>
    ensures { IfOk result (λ instr. instr ≡ const_instr value kind number) }
{
    let comps = equal_components(alloc, reduced(number, kind.width), kind.count)?;
    Ok(Instr::Const { value, kind, comps })
}

/// Adds the instruction that defines the next fresh number, and answers all of its value as a source.
fn add_fresh(instr: Instr, count: u8, building: &mut Building) -> Result<Src, OutOfMemory>
    requires few { count ≤ 16 }
    requires room { building.old.next + 1 < 2 ^ 32 }
    ensures source { IfOk result (λ src. src ≡ whole_source (record { 0 = building.old.next }) count) }
    ensures instrs { IfOk result (λ src. building.new.instrs ≡ building.old.instrs ++ instr ∷ []) }
    ensures nodes { building.new.nodes ≡ building.old.nodes }
    ensures next { IfOk result (λ src. building.new.next ≡ suc building.old.next) }
{
    building.instrs.push(instr)?;
    let value = ValueId(building.next);
    building.next += 1;
    Ok(whole_source(value, count))
}

/// Builds a term whose node is the next of those that have these sizes, and answers its value as a source.
#[cycle(build)]
fn build_term(
    alloc: Global,
    subst: &[Bind],
    count: u8,
    term: &Term,
    widths: &[Width],
    building: &mut Building,
) -> Result<Src, OutOfMemory>
    requires few { count ≤ 16 }
    requires enough { building.old.nodes + size_of (terms_of (term.now ∷ [])) ≤ length widths.now }
    requires room { building.old.next + size_of (terms_of (term.now ∷ [])) < 2 ^ 32 }
    ensures { IfOk result (λ src. Builds subst.now count (terms_of (term.now ∷ [])) widths.now building.old building.new (src ∷ [])) }
{
    let kind = Kind {
        width: widths[building.nodes],
        count,
    };
    building.nodes += 1;
    match term {
        Term::Var { var, .. } => Ok(bound_source(subst, *var)),
        Term::Lit { value: number, .. } => {
            let instr = const_instr(alloc, ValueId(building.next), kind, *number)?;
            let src = add_fresh(instr, count, building)?;
            Ok(src)
        }
        Term::App { op, args, .. } => {
            let srcs = build_terms(alloc, subst, count, args.as_slice(), widths, building)?;
            let instr = Instr::Alu {
                value: ValueId(building.next),
                op: *op,
                kind,
                srcs,
            };
            let src = add_fresh(instr, count, building)?;
            Ok(src)
        }
    }
}

/// Builds terms one after another, and answers their values as sources.
#[cycle(build)]
fn build_terms(
    alloc: Global,
    subst: &[Bind],
    count: u8,
    terms: &[Term],
    widths: &[Width],
    building: &mut Building,
) -> Result<Srcs, OutOfMemory>
    requires few { count ≤ 16 }
    requires enough { building.old.nodes + size_of (terms_of terms.now) ≤ length widths.now }
    requires room { building.old.next + size_of (terms_of terms.now) < 2 ^ 32 }
    ensures { IfOk result (λ srcs. Builds subst.now count (terms_of terms.now) widths.now building.old building.new srcs) }
{
    let mut srcs = Srcs::new(alloc);
    for term in terms {
        let src = build_term(alloc, subst, count, term, widths, building)?;
        srcs.push(src)?;
    }
    Ok(srcs)
}

/// One instruction alone.
fn one_instr(alloc: Global, instr: Instr) -> Result<Instrs, OutOfMemory>
    ensures { IfOk result (λ instrs. instrs ≡ instr ∷ []) }
{
    let mut instrs = Instrs::new(alloc);
    instrs.push(instr)?;
    Ok(instrs)
}

/// A view in each place, as one instruction.
fn mov_instr(alloc: Global, value: ValueId, kind: Kind, src: Src) -> Result<Instr, OutOfMemory>
    ensures { IfOk result (λ instr. instr ≡ Instr.Alu value Op.Mov kind (src ∷ [])) }
{
    let mut srcs = Srcs::new(alloc);
    srcs.push(src)?;
    Ok(Instr::Alu {
        value,
        op: Op::Mov,
        kind,
        srcs,
    })
}

/// The instructions that make the replacement, in postorder: the last defines `value`, those before it fresh numbers from `next` on. Its nodes
/// have these bit sizes in preorder, and `subst` says what its variables are bound to.
pub(crate) fn root_instrs(
    alloc: Global,
    subst: &[Bind],
    value: ValueId,
    count: u8,
    replace: &Term,
    widths: &[Width],
    next: u32,
) -> Result<Instrs, OutOfMemory>
    requires few { count ≤ 16 }
    requires enough { size_of (terms_of (replace.now ∷ [])) ≤ length widths.now }
    requires room { next + size_of (terms_of (replace.now ∷ [])) < 2 ^ 32 }
    ensures { IfOk result (λ instrs. instrs ≡ (root_of subst.now value count (terms_of (replace.now ∷ [])) widths.now next).instrs) }
{
    let kind = Kind {
        width: widths[0],
        count,
    };
    match replace {
        Term::Var { var, .. } => {
            let instr = mov_instr(alloc, value, kind, bound_source(subst, *var))?;
            let instrs = one_instr(alloc, instr)?;
            Ok(instrs)
        }
        Term::Lit { value: number, .. } => {
            let instr = const_instr(alloc, value, kind, *number)?;
            let instrs = one_instr(alloc, instr)?;
            Ok(instrs)
        }
        Term::App { op, args, .. } => {
            let mut building = Building {
                instrs: Instrs::new(alloc),
                nodes: 1,
                next,
            };
            let srcs = build_terms(alloc, subst, count, args.as_slice(), widths, &mut building)?;
            building.instrs.push(Instr::Alu {
                value,
                op: *op,
                kind,
                srcs,
            })?;
            let Building { instrs, .. } = building;
            Ok(instrs)
        }
    }
}
