//! Whether a rule stands at 8 bits alone, and its typing.

ghost use Rattle.std.specs.Prelude.{◌≡◌, true, [], ◌∷◌, IfOk, Some, is_none, replicate};
ghost use Rattle.nir_ops.specs.declared.width.Width.TheVariants.{W8};
ghost use Rattle.rule_term.specs.Typings.{is_typing};
ghost use Rattle.std.specs.List.{list_all, list_any};
ghost use Rattle.nir_ops.specs.Opcodes.{op_info};
ghost use Rattle.rule_term.specs.EightBit.{all_eight, asks_eight, eight_or_none, eight_piece, is_eight, is_eight_bit, is_unsized};
ghost use Rattle.rule_term.specs.Pieces.{pieces, LitPiece};
ghost use Rattle.rule_term.specs.Terms.{terms_of};

use crate::nodes::nodes_in;
use crate::rule::Rule;
use crate::term::Term;
use crate::typing::{Typing, Widths};
use nir_host::OutOfMemory;
use nir_ops::{Op, OpInput, Width, allowed, info};
use std::alloc::Global;

impl Rule {
    /// Whether no opcode has a size of its own, no size but 8 is written, numbers fit 8 bits, and a variable of the
    /// search side asks for 8. Such a rule has one typing, with 8 bits for each node.
    #[tactic(auto, unfolding(crate::specs::EightBit::is_eight_bit))]
    pub fn is_eight_bit(&self) -> bool
        ensures { result ≡ is_eight_bit self.now }
    {
        if !eight_term(&self.search) {
            return false;
        }
        if !eight_term(&self.replace) {
            return false;
        }
        asks_eight_term(&self.search)
    }
}

fn is_eight(width: Width) -> bool
    ensures { result ≡ is_eight (Some width) }
{
    match width {
        Width::W8 => true,
        Width::W1 | Width::W16 | Width::W32 | Width::W64 => false,
    }
}

fn eight_or_none(size: Option<Width>) -> bool
    ensures { result ≡ eight_or_none size }
{
    match size {
        Some(width) => is_eight(width),
        None => true,
    }
}

fn asks_eight(size: Option<Width>) -> bool
    ensures { result ≡ is_eight size }
{
    match size {
        Some(width) => is_eight(width),
        None => false,
    }
}

fn are_unsized(inputs: &[OpInput]) -> bool
    ensures { result ≡ list_all (λ input. is_none input.kind.size) inputs.now }
{
    for input in inputs {
        if input.kind.size.is_some() {
            return false;
        }
    }
    true
}

/// Whether all sources and the result of the opcode have the unsized size, which may be 8.
#[tactic(auto, unfolding(crate::specs::EightBit::is_unsized))]
fn is_unsized(op: Op) -> bool
    ensures { result ≡ is_unsized op }
{
    if !allowed(op, Width::W8) {
        return false;
    }
    let row = info(op);
    if row.out.size.is_some() {
        return false;
    }
    are_unsized(row.inputs.as_slice())
}

/// Whether the number fits 8 bits, and is no truth value.
fn eight_literal(value: i128, boolean: bool) -> bool
    ensures { result ≡ eight_piece (LitPiece value boolean) }
{
    if boolean {
        return false;
    }
    if value < -128 {
        return false;
    }
    value < 256
}

#[cycle(eight)]
#[tactic(auto, using(crate::proofs::EightLemmas::eight_steps))]
fn eight_term(term: &Term) -> bool
    ensures { result ≡ list_all eight_piece (pieces (terms_of (term.now ∷ []))) }
{
    match term {
        Term::Var { size, .. } => eight_or_none(*size),
        Term::Lit { value, boolean } => eight_literal(*value, *boolean),
        Term::App { op, size, args, .. } => {
            if !is_unsized(*op) {
                return false;
            }
            if !eight_or_none(*size) {
                return false;
            }
            eight_terms(args.as_slice())
        }
    }
}

#[cycle(eight)]
#[tactic(auto, using(crate::proofs::EightLemmas::eight_steps))]
fn eight_terms(terms: &[Term]) -> bool
    ensures { result ≡ list_all eight_piece (pieces (terms_of terms.now)) }
{
    for term in terms {
        if !eight_term(term) {
            return false;
        }
    }
    true
}

#[cycle(asks)]
#[tactic(auto, using(crate::proofs::EightLemmas::asks_steps))]
fn asks_eight_term(term: &Term) -> bool
    ensures { result ≡ list_any asks_eight (pieces (terms_of (term.now ∷ []))) }
{
    match term {
        Term::Var { size, .. } => asks_eight(*size),
        Term::Lit { .. } => false,
        Term::App { args, .. } => asks_eight_terms(args.as_slice()),
    }
}

#[cycle(asks)]
#[tactic(auto, using(crate::proofs::EightLemmas::asks_steps))]
fn asks_eight_terms(terms: &[Term]) -> bool
    ensures { result ≡ list_any asks_eight (pieces (terms_of terms.now)) }
{
    for term in terms {
        if asks_eight_term(term) {
            return true;
        }
    }
    false
}

impl Typing {
    /// 8 bits for each node: the only typing of a rule that stands at 8 bits alone.
    pub fn all_eight(alloc: Global, rule: &Rule) -> Result<Typing, OutOfMemory>
        requires { is_eight_bit rule.now ≡ true }
        ensures widths { IfOk result (λ typing. typing.widths ≡ all_eight rule.now) }
        ensures typing { IfOk result (λ typing. is_typing rule.now typing.widths ≡ true) }
    {
        let count = nodes_in(&rule.search) + nodes_in(&rule.replace);
        let widths = eights(alloc, count)?;
        Ok(Typing { widths })
    }
}

/// So many sizes of 8 bits.
fn eights(alloc: Global, count: usize) -> Result<Widths, OutOfMemory>
    ensures { IfOk result (λ widths. widths ≡ replicate count W8) }
{
    let mut widths = Widths::new(alloc);
    for _at in 0..count {
        widths.push(Width::W8)?;
    }
    Ok(widths)
}
