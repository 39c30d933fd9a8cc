//! Rules are made of sides that are formed.

ghost use Rattle.std.specs.Prelude.{◌≡◌, ◌≤◌, ◌&&◌, not, true, Some, None, [], ◌∷◌, length, nat_eq, if◌then◌else◌};
ghost use Rattle.nir_ops.specs.Opcodes.{op_info};
ghost use Rattle.rule_term.specs.Formed.{may_stand, literal_formed, is_application};
ghost use Rattle.rule_term.specs.FormedTest.{search_formed, replace_formed, sides_formed, FormedIsTested};
ghost use Rattle.rule_term.specs.FormedWalk.{is_search, var_passed, passed, walked};
ghost use Rattle.rule_term.specs.Pieces.{LitPiece, AppPiece, pieces};
ghost use Rattle.rule_term.specs.Terms.{terms_of};

use crate::rule::Rule;
use crate::side::Side;
use crate::term::Term;
use crate::when::When;
use nir_ops::{Op, info};
use op_eval::{Shape, shape_on_lists};

/// How many opcodes and how many variables one side may have.
const MOST: u32 = 16;

impl Rule {
    /// The rule of these sides, None exactly where it is not formed (`specs/Formed.antt`).
    pub fn new(number: u32, search: Term, replace: Term, when: When, vars: u32) -> Option<Rule>
        ensures { result ≡ (if sides_formed vars (terms_of (search ∷ [])) (terms_of (replace ∷ [])) then Some (record { number = number; search = terms_of (search ∷ []); replace = terms_of (replace ∷ []); when = when; vars = vars }) else None) }
    {
        if !are_formed(&search, &replace, vars) {
            return None;
        }
        Some(Rule {
            number,
            search,
            replace,
            when,
            vars,
        })
    }
}

/// The test of a rule's sides is that of its type.
pub fn formed_is_tested()
    ensures { FormedIsTested }
{}

/// How far a walk along a side has come: the opcodes behind it, and the number of the next new variable.
#[derive(Clone, Copy)]
pub(crate) struct Progress {
    ops: u32,
    next: u32,
}

/// Whether the sides are those of a rule with so many variables.
#[tactic(auto, using(crate::proofs::FormedLemmas::sides_are))]
fn are_formed(search: &Term, replace: &Term, vars: u32) -> bool
    ensures { result ≡ sides_formed vars (terms_of (search.now ∷ [])) (terms_of (replace.now ∷ [])) }
{
    if vars > MOST {
        return false;
    }
    if !is_application(search) {
        return false;
    }
    if !is_search_formed(search, vars) {
        return false;
    }
    is_replace_formed(replace, vars)
}

#[tactic(auto, using(crate::proofs::FormedLemmas::search_is))]
fn is_search_formed(search: &Term, vars: u32) -> bool
    requires { vars ≤ 16 }
    ensures { result ≡ search_formed vars (terms_of (search.now ∷ [])) }
{
    match behind_term(Side::Search, search, Progress { ops: 0, next: 0 }) {
        Some(end) => end.next == vars,
        None => false,
    }
}

#[tactic(auto, using(crate::proofs::FormedLemmas::replace_is))]
fn is_replace_formed(replace: &Term, vars: u32) -> bool
    ensures { result ≡ replace_formed vars (terms_of (replace.now ∷ [])) }
{
    match behind_term(Side::Replace, replace, Progress { ops: 0, next: vars }) {
        Some(_) => true,
        None => false,
    }
}

#[tactic(auto, using(crate::proofs::FormedLemmas::application_steps))]
fn is_application(term: &Term) -> bool
    ensures { result ≡ is_application (terms_of (term.now ∷ [])) }
{
    match term {
        Term::Var { .. } | Term::Lit { .. } => false,
        Term::App { .. } => true,
    }
}

/// Behind a term of the side, None where a node of it may not stand there.
#[cycle(walk)]
#[tactic(auto, using(crate::proofs::FormedLemmas::walk_steps))]
fn behind_term(side: Side, term: &Term, at: Progress) -> Option<Progress>
    ensures { result ≡ walked side at (pieces (terms_of (term.now ∷ []))) }
{
    match term {
        Term::Var {
            var,
            constant,
            size,
            cond,
        } => {
            let plain = !*constant && size.is_none() && cond.is_none();
            behind_var(side, *var, plain, at)
        }
        Term::Lit { value, boolean } => behind_literal(*value, *boolean, at),
        Term::App { op, once, args, .. } => {
            let Some(at) = behind_op(side, *op, *once, args.len(), at) else {
                return None;
            };
            behind_terms(side, args.as_slice(), at)
        }
    }
}

/// Behind the terms of the side.
#[cycle(walk)]
#[tactic(auto, using(crate::proofs::FormedLemmas::walk_steps))]
fn behind_terms(side: Side, terms: &[Term], at: Progress) -> Option<Progress>
    ensures { result ≡ walked side at (pieces (terms_of terms.now)) }
{
    let mut at = at;
    for term in terms {
        match behind_term(side, term, at) {
            Some(next) => at = next,
            None => return None,
        }
    }
    Some(at)
}

/// Behind a variable, which is plain where nothing but its value is asked for.
fn behind_var(side: Side, var: u32, plain: bool, at: Progress) -> Option<Progress>
    ensures { result ≡ var_passed side var plain at }
{
    match side {
        Side::Search => {
            if var < at.next {
                return Some(at);
            }
            if var != at.next {
                return None;
            }
            if at.next >= MOST {
                return None;
            }
            Some(Progress {
                ops: at.ops,
                next: at.next + 1,
            })
        }
        Side::Replace => {
            if var >= at.next {
                return None;
            }
            if plain {
                return Some(at);
            }
            None
        }
    }
}

/// Behind a literal.
fn behind_literal(value: i128, boolean: bool, at: Progress) -> Option<Progress>
    ensures { result ≡ (if literal_formed value boolean then Some at else None) }
{
    if is_literal_formed(value, boolean) {
        return Some(at);
    }
    None
}

/// Whether a literal may have this value.
fn is_literal_formed(value: i128, boolean: bool) -> bool
    ensures { result ≡ literal_formed value boolean }
{
    if boolean {
        return value == 0 || value == 1;
    }
    -(1 << 63) <= value && value < 1 << 64
}

/// Behind an opcode with so many sources, which asks for one use of its result where `once` is set.
fn behind_op(side: Side, op: Op, once: bool, sources: usize, at: Progress) -> Option<Progress>
    ensures { result ≡ passed side at (AppPiece op None once sources) }
{
    if !may_stand(op) {
        return None;
    }
    if sources != info(op).inputs.len() {
        return None;
    }
    if !may_ask_for_one_use(side, once) {
        return None;
    }
    if at.ops >= MOST {
        return None;
    }
    Some(Progress {
        ops: at.ops + 1,
        next: at.next,
    })
}

/// Only on the search side.
fn may_ask_for_one_use(side: Side, once: bool) -> bool
    ensures { result ≡ (if is_search side then true else not once) }
{
    match side {
        Side::Search => true,
        Side::Replace => !once,
    }
}

/// Whether the opcode may stand in a rule.
#[tactic(auto, unfolding(crate::specs::Formed::may_stand))]
pub fn may_stand(op: Op) -> bool
    ensures { result ≡ may_stand op }
{
    if let Op::Mov = op {
        return false;
    }
    match shape_on_lists(op) {
        Shape::EachPlace => true,
        Shape::Gathers | Shape::AllEqual | Shape::SomeDiffer => false,
    }
}
