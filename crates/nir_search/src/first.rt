//! The first rule that matches at a value.

ghost use Rattle.std.specs.Prelude.{◌≡◌, ◌≤◌, ◌<◌, ◌+◌, [], ◌∷◌, length, slice_get, Some};
ghost use Rattle.rule_term.specs.Rule.{Rule as Whole};
ghost use Rattle.rule_term.specs.Variants.{variant_count};
ghost use Rattle.nir_search.specs.Match.{is_typed, match_of, met, root_view};
ghost use Rattle.nir_search.specs.First.{first_hit, hit_of, table_variants};
ghost use Rattle.nir_search.specs.Work.{Fits};

use crate::bound::Bound;
use crate::facts::count_at;
use crate::hit::{Hit, Subst};
use crate::matching::{match_term, may_match};
use crate::steps::Steps;
use crate::view::whole_view;
use crate::widths::widths_met;
use crate::work::Work;
use nir_ir::ValueId;
use rule_term::{Options, Rule, RuleVariant, Table, replace_widths};
use rule_variants::variant_count;
use std::sync::ledger::Ledger;

/// Whether the values that the variant meets at the value have the sizes of a typing of the rule.
fn is_typed(rule: &Rule, variant: u32, work: &Work, value: ValueId) -> bool
    ensures { result ≡ is_typed rule.now (met work.now.shader.body rule.now.search variant (root_view work.now.shader.body value ∷ [])) }
{
    let widths = widths_met(rule, variant, work, value);
    replace_widths(rule, widths.as_slice()).is_some()
}

/// What the variables of a rule take where this variant of it matches at the value.
fn match_at(rule: &Rule, variant: u32, work: &Work, value: ValueId) -> Option<Subst>
    ensures { result ≡ match_of rule.now variant work.now.shader.body value }
{
    let view = whole_view(value, count_at(work, value));
    let mut bound = Bound::new(rule.vars);
    match match_term(work, &rule.search, view, variant, &mut bound) {
        Some(_left) => {
            if is_typed(rule, variant, work, value) {
                return Some(bound.subst());
            }
            None
        }
        None => None,
    }
}

/// What the variables of a rule take where this variant of it matches at the value; None exactly where it does
/// not. Counts one step. The sizes are looked at last, where all else matches; it takes no memory.
pub fn match_rule<L: Ledger>(
    table: &Table,
    rv: RuleVariant,
    work: &Work,
    value: ValueId,
    steps: &mut Steps<L>,
) -> Option<Subst>
    requires place { rv.rule < length table.now.rules }
    requires fits { Fits work.now table.now.rules }
    ensures value { (rule : Whole) → slice_get table.now.rules rv.rule ≡ Some rule → result ≡ match_of rule rv.variant work.now.shader.body value }
    ensures counted { steps.new ≡ steps.old + 1 }
{
    steps.tick();
    match_at(table.rule(rv.rule), rv.variant, work, value)
}

/// What one rule finds, of which the place in the table is this one. Where the root's opcode does not write the value, no variant is tried.
fn hit_of<L: Ledger>(
    table: &Table,
    place: u32,
    options: &Options,
    work: &Work,
    value: ValueId,
    steps: &mut Steps<L>,
) -> Option<Hit>
    requires place { place < length table.now.rules }
    requires fits { Fits work.now table.now.rules }
    ensures hit { (rule : Whole) → slice_get table.now.rules place ≡ Some rule → result ≡ hit_of options.now rule place work.now.shader.body value }
    ensures counted { (rule : Whole) → slice_get table.now.rules place ≡ Some rule → steps.new ≤ steps.old + variant_count rule }
{
    let rule = table.rule(place);
    if !rule.when.holds(options) {
        return None;
    }
    if !may_match(work, &rule.search, value) {
        return None;
    }
    for variant in 0..variant_count(rule) {
        let rv = RuleVariant {
            rule: place,
            variant,
        };
        match match_rule(table, rv, work, value, steps) {
            Some(subst) => {
                return Some(Hit {
                    rule: place,
                    variant,
                    subst,
                });
            }
            None => {}
        }
    }
    None
}

/// The first rule of the table that matches at the value, of which the options hold, with the first of its variants
/// that does; None exactly where none does. A plain search through all rules and variants, which counts at most one
/// step for each variant.
pub fn first_match<L: Ledger>(
    table: &Table,
    options: &Options,
    work: &Work,
    value: ValueId,
    steps: &mut Steps<L>,
) -> Option<Hit>
    requires fits { Fits work.now table.now.rules }
    ensures hit { result ≡ first_hit options.now table.now.rules work.now.shader.body value }
    ensures counted { steps.new ≤ steps.old + table_variants table.now.rules }
{
    for place in 0..table.len() {
        match hit_of(table, place as u32, options, work, value, steps) {
            Some(hit) => return Some(hit),
            None => {}
        }
    }
    None
}
