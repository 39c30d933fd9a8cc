//! What shows the condition of a law.

ghost use Rattle.std.specs.Prelude.{◌≡◌, [], ◌∷◌, Some};
ghost use Rattle.std.specs.List.{list_any};
ghost use Rattle.std.specs.Option.{option_map};
ghost use Rattle.rule_term.specs.Pieces.{pieces};
ghost use Rattle.rule_term.specs.Terms.{terms_of};
ghost use Rattle.law_derive.specs.Asking.{piece_asks};
ghost use Rattle.law_derive.specs.Derivations.{cond_met, is_cond, kind_meets, term_meets};
ghost use Rattle.law_derive.specs.Settings.{setting_says};
ghost use Rattle.law_derive.specs.StandingLaws.{NodeStands};
ghost use Rattle.law_derive.specs.Stepping.{FillingStands, SomeStands};
ghost use Rattle.law_derive.specs.Views.{filling_says};

use crate::matching::{Filled, found};
use crate::node::{Kind, Node};
use crate::setting::Setting;
use rule_term::{Cond, Term, cond_holds};

/// Whether what stands for c meets the condition: a number, or a variable with the condition on some occurrence of the search side.
pub(crate) fn cond_met(setting: &Setting<'_>, cond: Option<Cond>, filling: &[Filled<'_>]) -> bool
    requires { FillingStands (setting_says setting.now) (filling_says filling.now) }
    ensures { result ≡ cond_met (setting_says setting.now) cond (filling_says filling.now) }
{
    match cond {
        Some(cond) => term_meets(setting, cond, found(filling, 4)),
        None => true,
    }
}

fn term_meets(setting: &Setting<'_>, cond: Cond, term: Option<&[Node]>) -> bool
    requires { SomeStands (setting_says setting.now) (option_map (λ nodes. nodes.now) term) }
    ensures { result ≡ term_meets (setting_says setting.now) cond (option_map (λ nodes. nodes.now) term.entry) }
{
    let Some(nodes) = term else {
        return false;
    };
    match nodes.split_first() {
        Some((node, _behind)) => kind_meets(setting, cond, *node),
        None => false,
    }
}

#[tactic(auto, using(crate::specs::Asking::asks_any))]
fn kind_meets(setting: &Setting<'_>, cond: Cond, node: Node) -> bool
    requires { NodeStands (setting_says setting.now) node }
    ensures { result ≡ kind_meets (setting_says setting.now) cond node.width node.kind }
{
    let rule = setting.rule;
    match node.kind {
        Kind::Var { var } => asks_in(&rule.search, cond, var),
        Kind::Lit { word } => cond_holds(cond, node.width, word),
        Kind::App { .. } => false,
    }
}

fn is_cond(cond: Cond, own: Option<Cond>) -> bool
    ensures { result ≡ is_cond cond own }
{
    match own {
        Some(own) => own == cond,
        None => false,
    }
}

/// Whether the variable stands in the term with the condition.
#[cycle(asks)]
#[tactic(auto, using(crate::proofs::AskingLemmas::asks_steps))]
fn asks_in(term: &Term, cond: Cond, var: u32) -> bool
    ensures { result ≡ list_any (piece_asks cond var) (pieces (terms_of (term.now ∷ []))) }
{
    match term {
        Term::Var {
            var: own,
            cond: own_cond,
            ..
        } => {
            if *own != var {
                return false;
            }
            is_cond(cond, *own_cond)
        }
        Term::Lit { .. } => false,
        Term::App { args, .. } => asks_in_terms(args.as_slice(), cond, var),
    }
}

/// Whether the variable stands in one of the terms with the condition.
#[cycle(asks)]
#[tactic(auto, using(crate::proofs::AskingLemmas::asks_steps))]
fn asks_in_terms(terms: &[Term], cond: Cond, var: u32) -> bool
    ensures { result ≡ list_any (piece_asks cond var) (pieces (terms_of terms.now)) }
{
    for term in terms {
        if asks_in(term, cond, var) {
            return true;
        }
    }
    false
}
