//! Copies of terms in which sources of opcodes stand swapped.

ghost use Rattle.std.specs.Prelude.{◌≡◌, [], ◌∷◌, IfOk};
ghost use Rattle.rule_term.specs.Swapped.{swapped_terms};
ghost use Rattle.rule_term.specs.Terms.{terms_of};
ghost use Rattle.rule_term.specs.Variants.{variant_of};
ghost use Rattle.rule_variants.specs.Varied.{IsVaried};

use crate::bits::{bits_left, is_swapped};
use nir_host::{OutOfMemory, Seq};
use rule_term::{Rule, Term, Terms};
use std::alloc::Global;

/// The terms, of which the first two change places where that is asked. Fewer than two stay as they are.
fn with_swapped(swap: bool, terms: Terms) -> Terms
    ensures { terms_of result ≡ swapped_terms swap (terms_of terms) }
{
    if !swap {
        return terms;
    }
    if terms.len() < 2 {
        return terms;
    }
    let mut items = terms.into_vec();
    items.swap(0, 1);
    Seq::from_vec(items)
}

/// A copy of the term, in which the sources stand swapped as the bits say. Leaves the bits of what stands behind it.
#[cycle(varied)]
fn varied_term(alloc: Global, term: &Term, bits: &mut u32) -> Result<Term, OutOfMemory>
    ensures { IfOk result (λ copy. IsVaried (terms_of (term.now ∷ [])) bits.old (terms_of (copy ∷ [])) bits.new) }
{
    match term {
        Term::Var {
            var,
            constant,
            size,
            cond,
        } => Ok(Term::Var {
            var: *var,
            constant: *constant,
            size: *size,
            cond: *cond,
        }),
        Term::Lit { value, boolean } => Ok(Term::Lit {
            value: *value,
            boolean: *boolean,
        }),
        Term::App {
            op,
            size,
            once,
            args,
        } => {
            let swap = is_swapped(*op, *bits);
            *bits = bits_left(*op, *bits);
            let copies = varied_terms(alloc, args.as_slice(), bits)?;
            Ok(Term::App {
                op: *op,
                size: *size,
                once: *once,
                args: with_swapped(swap, copies),
            })
        }
    }
}

/// Copies of the terms, as of one.
#[cycle(varied)]
fn varied_terms(alloc: Global, terms: &[Term], bits: &mut u32) -> Result<Terms, OutOfMemory>
    ensures { IfOk result (λ copies. IsVaried (terms_of terms.now) bits.old (terms_of copies) bits.new) }
{
    let mut copies = Seq::new(alloc);
    for term in terms {
        let copy = varied_term(alloc, term, bits)?;
        copies.push(copy)?;
    }
    Ok(copies)
}

/// The search side of the rule's variant of this number.
pub(crate) fn side_of(alloc: Global, rule: &Rule, variant: u32) -> Result<Term, OutOfMemory>
    ensures { IfOk result (λ side. terms_of (side ∷ []) ≡ variant_of rule.now.search variant) }
{
    let mut bits = variant;
    varied_term(alloc, &rule.search, &mut bits)
}
