//! The walk along a rule that collects what is asked of the sizes of its nodes.

ghost use Rattle.std.specs.Prelude.{◌≡◌, ◌+◌, ◌<◌, ◌^◌, ◌++◌, [], ◌∷◌, IfOk, OnOk, map};
ghost use Rattle.rule_term.specs.Terms.{terms_of};
ghost use Rattle.rule_term.specs.Typings.{size_of};
ghost use Rattle.size_infer.specs.Meant.{meant, spot_of};
ghost use Rattle.size_infer.specs.FoundFor.{IsAskedBy};
ghost use Rattle.size_laws.specs.NodeRules.{root_places, rules_of, var_places};

use crate::size_rule::{SizeRule, SizeRules, Spot, Spots, add_links};
use crate::sources::add_op;
use nir_host::{OutOfMemory, Seq};
use rule_term::{Rule, Term, WidthSet};
use std::alloc::Global;

/// All that a rule asks of the sizes of its nodes, and how many nodes each side has.
#[derive(Drop)]
pub(crate) struct Asked {
    pub(crate) rules: SizeRules,
    pub(crate) searched: usize,
    pub(crate) replaced: usize,
}

/// Collects what the rule asks.
pub(crate) fn asked_of(alloc: Global, rule: &Rule) -> Result<Asked, OutOfMemory>
    ensures { IfOk result (λ asked. IsAskedBy rule.now asked) }
{
    let mut rules = Seq::new(alloc);
    let mut spots = Seq::new(alloc);
    let searched = add_term(alloc, &rule.search, 0, &mut rules, &mut spots)?;
    let nodes = add_term(alloc, &rule.replace, searched, &mut rules, &mut spots)?;
    rules.push(SizeRule::Same {
        one: 0,
        other: searched,
    })?;
    add_links(spots.as_slice(), &mut rules)?;
    Ok(Asked {
        rules,
        searched,
        replaced: nodes - searched,
    })
}

/// Adds what is asked of the nodes of a term whose root is at this place, and its variables. Answers the place behind it.
#[cycle(walk)]
fn add_term(
    alloc: Global,
    term: &Term,
    place: usize,
    rules: &mut SizeRules,
    spots: &mut Spots,
) -> Result<usize, OutOfMemory>
    requires small { place + size_of (terms_of (term.now ∷ [])) < 2 ^ 64 }
    ensures rules { OnOk result (map meant rules.new ≡ map meant rules.old ++ rules_of (terms_of (term.now ∷ [])) place) }
    ensures spots { OnOk result (spots.new ≡ spots.old ++ map spot_of (var_places (terms_of (term.now ∷ [])) place)) }
    ensures behind { IfOk result (λ behind. behind ≡ place + size_of (terms_of (term.now ∷ []))) }
{
    match term {
        Term::Var { var, size, .. } => {
            rules.push(SizeRule::Within {
                place,
                set: WidthSet::written(*size),
            })?;
            spots.push(Spot { var: *var, place })?;
            Ok(place + 1)
        }
        Term::Lit { value, boolean } => {
            rules.push(SizeRule::Within {
                place,
                set: WidthSet::of_literal(*value, *boolean),
            })?;
            Ok(place + 1)
        }
        Term::App { op, size, args, .. } => {
            rules.push(SizeRule::Within {
                place,
                set: WidthSet::written(*size),
            })?;
            let mut roots = Seq::new(alloc);
            let behind = add_terms(alloc, args.as_slice(), place + 1, rules, spots, &mut roots)?;
            add_op(*op, place, roots.as_slice(), rules)?;
            Ok(behind)
        }
    }
}

/// Adds what is asked of the nodes of the terms, their variables, and the places of their roots. Answers the place behind them.
#[cycle(walk)]
fn add_terms(
    alloc: Global,
    terms: &[Term],
    first: usize,
    rules: &mut SizeRules,
    spots: &mut Spots,
    roots: &mut Seq<usize>,
) -> Result<usize, OutOfMemory>
    requires small { first + size_of (terms_of terms.now) < 2 ^ 64 }
    ensures rules { OnOk result (map meant rules.new ≡ map meant rules.old ++ rules_of (terms_of terms.now) first) }
    ensures spots { OnOk result (spots.new ≡ spots.old ++ map spot_of (var_places (terms_of terms.now) first)) }
    ensures roots { OnOk result (roots.new ≡ roots.old ++ root_places (terms_of terms.now) first) }
    ensures behind { IfOk result (λ behind. behind ≡ first + size_of (terms_of terms.now)) }
{
    let mut place = first;
    for term in terms {
        roots.push(place)?;
        place = add_term(alloc, term, place, rules, spots)?;
    }
    Ok(place)
}
