//! Expressions of steps as nodes at their sizes.

ghost use Rattle.std.specs.Prelude.{◌≡◌, ◌&&◌, true, IfOk, [], ◌∷◌};
ghost use Rattle.std.specs.List.{list_all};
ghost use Rattle.rule_term.specs.Pieces.{pieces};
ghost use Rattle.rule_term.specs.ReplaceLeast.{knows};
ghost use Rattle.rule_term.specs.Terms.{terms_of};
ghost use Rattle.rule_term.specs.Typings.{is_typing};
ghost use Rattle.law_derive.specs.Derivations.{Setting, expr_nodes, piece_formed};
ghost use Rattle.law_derive.specs.ExprSizes.{KnowsSizes, nodes_from};

use crate::node::Node;
use crate::sizes::{fill_term, root_size};
use crate::terms::nodes_of;
use nir_host::{OutOfMemory, Seq};
use nir_ops::{Width, info};
use rule_term::{Known, Rule, Term, may_stand, nodes_in, note_term};
use std::alloc::Global;

/// The sizes of the variables of the rule, where its nodes have these.
pub(crate) fn known_of(rule: &Rule, widths: &[Width]) -> Known
    requires { is_typing rule.now widths.now ≡ true }
    ensures { KnowsSizes (record { rule = rule.now; widths = widths.now }) result }
{
    let searched = nodes_in(&rule.search);
    note_term(&rule.search, &widths[..searched], [None; 16]).unwrap_or([None; 16])
}

/// Whether each opcode of the term may stand in a rule, and has its sources.
#[cycle(formed)]
#[tactic(auto, using(crate::proofs::TermLists::formed_steps))]
fn is_formed(term: &Term) -> bool
    ensures { result ≡ list_all piece_formed (pieces (terms_of (term.now ∷ []))) }
{
    match term {
        Term::Var { .. } => true,
        Term::Lit { .. } => true,
        Term::App { op, args, .. } => {
            if !may_stand(*op) {
                return false;
            }
            if args.len() != info(*op).inputs.len() {
                return false;
            }
            are_formed(args.as_slice())
        }
    }
}

/// Whether each opcode of the terms may stand in a rule, and has its sources.
#[cycle(formed)]
#[tactic(auto, using(crate::proofs::TermLists::formed_steps))]
fn are_formed(terms: &[Term]) -> bool
    ensures { result ≡ list_all piece_formed (pieces (terms_of terms.now)) }
{
    for term in terms {
        if !is_formed(term) {
            return false;
        }
    }
    true
}

/// The nodes of an expression from the sizes of its variables, where each of its nodes can have
/// exactly one size and its root has the one that is asked for.
#[tactic(auto, unfolding(crate::specs::ExprSizes::nodes_from))]
fn expr_from(
    alloc: Global,
    known: &Known,
    size: Option<Width>,
    term: &Term,
) -> Result<Option<Seq<Node>>, OutOfMemory>
    ensures { IfOk result (λ nodes. nodes ≡ nodes_from (knows known.now) size (terms_of (term.now ∷ []))) }
{
    if !is_formed(term) {
        return Ok(None);
    }
    let Some(width) = root_size(term, known, size) else {
        return Ok(None);
    };
    let mut widths = Seq::new(alloc);
    fill_term(term, width, known, &mut widths)?;
    let nodes = nodes_of(alloc, term, widths.as_slice())?;
    Ok(Some(nodes))
}

/// The nodes of an expression of a step, None where not exactly one list of sizes obeys: variables
/// have the sizes that are known, and the value has the one that is asked for.
#[tactic(auto, using(crate::specs::ExprNodesLaws::known_from_root))]
pub(crate) fn expr_nodes(
    alloc: Global,
    known: &Known,
    size: Option<Width>,
    term: &Term,
) -> Result<Option<Seq<Node>>, OutOfMemory>
    ensures { IfOk result (λ nodes. (at : Setting) → KnowsSizes at known.now → nodes ≡ expr_nodes at size (terms_of (term.now ∷ []))) }
{
    expr_from(alloc, known, size, term)
}
