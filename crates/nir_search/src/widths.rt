//! The bit sizes of the values that a match meets.

ghost use Rattle.std.specs.Prelude.{◌≡◌, ◌≤◌, ◌+◌, [], ◌∷◌, ◌++◌, Bool, List, length, map, ℕ};
ghost use Rattle.rule_term.specs.Terms.{terms_of};
ghost use Rattle.rule_term.specs.Typings.{size_of};
ghost use Rattle.rule_term.specs.Variants.{bits_behind};
ghost use Rattle.nir_ir.specs.Definitions.{alu_at};
ghost use Rattle.nir_search.specs.Match.{child, children_of, met, root_view, swapped};

use crate::facts::{count_at, width_at};
use crate::hit::Bind;
use crate::view::{child_at, whole_view};
use crate::work::Work;
use arrayvec::ArrayVec;
use nir_ir::{Instr, Src, ValueId};
use nir_ops::Width;
use rule_term::{Rule, Term};
use rule_variants::{bits_left, is_swapped};

/// The bit sizes of the values that a variant of a rule meets at a value, one for each node of the search side, in
/// preorder. Where an opcode of the rule meets a value that no instruction with an opcode writes, nothing is met
/// below it, and the sizes there are those of a value 0. It takes no memory.
pub fn widths_met(rule: &Rule, variant: u32, work: &Work, value: ValueId) -> ArrayVec<Width, 49>
    ensures { result.items ≡ met work.now.shader.body rule.now.search variant (root_view work.now.shader.body value ∷ []) }
{
    let view = whole_view(value, count_at(work, value));
    let mut widths = ArrayVec::new();
    let _bits = meet_term(work, &rule.search, view, variant, &mut widths);
    widths
}

/// Adds the sizes that a term meets at a view, and answers the bits of the variant that are left behind it.
#[cycle(meet)]
fn meet_term(
    work: &Work,
    term: &Term,
    view: Bind,
    bits: u32,
    widths: &mut ArrayVec<Width, 49>,
) -> u32
    requires room { length widths.old.items + size_of (terms_of (term.now ∷ [])) ≤ 49 }
    ensures left { result ≡ bits_behind (terms_of (term.now ∷ [])) bits }
    ensures met { widths.new.items ≡ widths.old.items ++ met work.now.shader.body (terms_of (term.now ∷ [])) bits (view ∷ []) }
{
    widths.push(width_at(work, view.value));
    match term {
        Term::Var { .. } => bits,
        Term::Lit { .. } => bits,
        Term::App { op, args, .. } => meet_terms(
            work,
            args.as_slice(),
            view.comps.as_slice(),
            is_swapped(*op, bits),
            sources_at(work, view.value),
            bits_left(*op, bits),
            widths,
        ),
    }
}

/// Adds the sizes that terms meet at the sources of an instruction, of which these components are viewed.
#[cycle(meet)]
fn meet_terms(
    work: &Work,
    terms: &[Term],
    comps: &[u8],
    flag: bool,
    srcs: &[Src],
    bits: u32,
    widths: &mut ArrayVec<Width, 49>,
) -> u32
    requires few { length comps.now ≤ 16 }
    requires room { length widths.old.items + size_of (terms_of terms.now) ≤ 49 }
    ensures left { result ≡ bits_behind (terms_of terms.now) bits }
    ensures met { widths.new.items ≡ widths.old.items ++ met work.now.shader.body (terms_of terms.now) bits (map (child comps.now) (swapped flag srcs.now)) }
{
    let mut bits = bits;
    for (at, term) in terms.iter().enumerate() {
        let view = child_at(comps, flag, srcs, at);
        bits = meet_term(work, term, view, bits, widths);
    }
    bits
}

/// The sources of the instruction with an opcode that writes the value; none where no such one does.
fn sources_at(work: &Work, value: ValueId) -> &[Src]
    ensures { (flag : Bool) (comps : List ℕ) → map (child comps) (swapped flag result.now) ≡ children_of (alu_at work.now.shader.body value) flag comps }
{
    match work.instr(value) {
        Some(Instr::Alu { srcs, .. }) => srcs.as_slice(),
        Some(
            Instr::Const { .. }
            | Instr::Undef { .. }
            | Instr::Input { .. }
            | Instr::Output { .. }
            | Instr::LoadBuf { .. }
            | Instr::StoreBuf { .. },
        )
        | None => &[],
    }
}
