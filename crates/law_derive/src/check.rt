//! Checking a derivation.

ghost use Rattle.std.specs.Prelude.{◌≡◌, [], true, IfOk, map};
ghost use Rattle.law_derive.specs.Derivations.{TellsFault, derivation_fault, derive_from};
ghost use Rattle.law_derive.specs.Nodes.{nodes_of};
ghost use Rattle.law_derive.specs.Settings.{IsKnown, setting_says};
ghost use Rattle.law_derive.specs.StandingLaws.{IsTermAt};
ghost use Rattle.rule_read.specs.Says.{step_says};
ghost use Rattle.rule_term.specs.Formed.{IsFormed};
ghost use Rattle.rule_term.specs.Holds.{EqualAt};
ghost use Rattle.rule_term.specs.Typings.{is_typing, replace_part, search_part};

use crate::expr::known_of;
use crate::fault::DeriveFault;
use crate::node::Node;
use crate::same::same_nodes;
use crate::setting::Setting;
use crate::step::step_made;
use crate::terms::{nodes_of, push_term};
use nir_host::{OutOfMemory, Seq};
use rule_read::{Derivation, DeriveStep};
use rule_term::{Rule, Typing};
use std::alloc::Global;

/// That the steps lead from the search side of the rule to its replacement at one of its typings. Then both sides have one value
/// there, for all values that meet the conditions on all occurrences of the variables.
/// # Errors
/// The first step that does not apply, and why, of several reasons the first: `NoLaw` where no law has the number, `BadPath` where
/// the path leads to no part of the term, `NoMatch` where the law does not match that part or the bindings are not those that it
/// asks for, or where the calculation is another value, `CondMissing` where nothing shows the law's condition. `WrongEnd` where all
/// apply and lead elsewhere. `OutOfMemory` may come at any time.
#[tactic(auto, unfolding(crate::specs::Derivations::derivation_fault))]
pub fn check_derivation(
    alloc: Global,
    rule: &Rule,
    typing: &Typing,
    derivation: &Derivation,
) -> Result<(), DeriveFault>
    requires { is_typing rule.now typing.now.widths ≡ true }
    ensures value { TellsFault (derivation_fault (record { rule = rule.now; widths = typing.now.widths }) (map step_says derivation.now)) result }
    ensures equal { IfOk result (λ _. EqualAt rule.now typing.now.widths) }
{
    // The proof learns that the rule is formed.
    let _number = rule.number;
    let known = known_of(rule, typing.widths.as_slice());
    let setting = Setting {
        rule,
        typing,
        known,
    };
    let sides = sides_of(alloc, rule, typing)?;
    let Sides { search, replace } = sides;
    derived(
        alloc,
        &setting,
        derivation.as_slice(),
        search,
        replace.as_slice(),
    )?;
    Ok(())
}

/// The nodes of both sides of a rule.
#[derive(Drop)]
struct Sides {
    search: Seq<Node>,
    replace: Seq<Node>,
}

/// The nodes of both sides at the typing.
#[tactic(auto, using(crate::proofs::TermLemmas::nodes_front))]
fn sides_of(alloc: Global, rule: &Rule, typing: &Typing) -> Result<Sides, OutOfMemory>
    ensures search { IfOk result (λ sides. sides.search ≡ nodes_of rule.now.search (search_part rule.now typing.now.widths)) }
    ensures replace { IfOk result (λ sides. sides.replace ≡ nodes_of rule.now.replace (replace_part rule.now typing.now.widths)) }
{
    let mut search = Seq::new(alloc);
    let behind = push_term(&mut search, &rule.search, typing.widths.as_slice())?;
    let replace = nodes_of(alloc, &rule.replace, behind)?;
    Ok(Sides { search, replace })
}

/// That the steps lead from one term to the other.
fn derived(
    alloc: Global,
    setting: &Setting<'_>,
    steps: &[DeriveStep],
    start: Seq<Node>,
    end: &[Node],
) -> Result<(), DeriveFault>
    requires known { IsKnown setting.now }
    requires term { IsTermAt (setting_says setting.now) start }
    requires end { end.now ≡ nodes_of (setting_says setting.now).rule.replace (replace_part (setting_says setting.now).rule (setting_says setting.now).widths) }
    ensures { TellsFault (derive_from (setting_says setting.now) 0 (map step_says steps.now) start) result }
{
    let mut nodes = start;
    for (number, step) in steps.iter().enumerate() {
        match step_made(alloc, setting, step, nodes.as_slice())? {
            Ok(next) => nodes = next,
            Err(fault) => return Err(fault.at_step(number as u64)),
        }
    }
    if !same_nodes(nodes.as_slice(), end) {
        return Err(DeriveFault::WrongEnd);
    }
    Ok(())
}
