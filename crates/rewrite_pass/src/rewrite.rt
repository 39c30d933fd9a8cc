//! One step by a rule: the replacement in the place of what the rule found.

ghost use Rattle.std.specs.Prelude.{◌≡◌, ◌+◌, ◌<◌, ◌≤◌, ◌^◌, IfOk, OnErr, Some, true};
ghost use Rattle.rule_term.specs.Descending.{is_descending};
ghost use Rattle.rule_term.specs.Table.{op_weight};
ghost use Rattle.nir_search.specs.Match.{match_of};
ghost use Rattle.nir_search.specs.Steps.{IsHit, put_hit};
ghost use Rattle.nir_search.specs.Weight.{weight_of};
ghost use Rattle.nir_search.specs.Work.{Fits};
ghost use Rattle.nir_validate.specs.Valid.{Valid};
ghost use Rattle.nir_mean.specs.Same.{Same};
ghost use Rattle.rule_meaning.specs.HitLaws.{ArePut};

use crate::build::root_instrs;
use nir_host::OutOfMemory;
use nir_ir::{Instrs, ValueId};
use nir_search::{Bind, Hit, Work, count_at, widths_met};
use rule_term::{Rule, Table, replace_widths};
use std::alloc::Global;

/// The instructions that a rule puts in the place of the one that defines the value, where a variant of it matches there with this substitution.
fn new_instrs(
    alloc: Global,
    work: &Work,
    rule: &Rule,
    variant: u32,
    value: ValueId,
    subst: &[Bind],
) -> Result<Instrs, OutOfMemory>
    requires found { match_of rule.now variant work.now.shader.body value ≡ Some subst.now }
    requires fresh { work.now.shader.next_value + 64 < 2 ^ 32 }
    ensures { IfOk result (λ news. ArePut rule.now variant work.now.shader value subst.now news) }
{
    let met = widths_met(rule, variant, work, value);
    let count = count_at(work, value);
    let next = work.next_value();
    match replace_widths(rule, met.as_slice()) {
        Some(widths) => {
            let sizes = widths.as_slice();
            let news = root_instrs(alloc, subst, value, count, &rule.replace, sizes, next)?;
            Ok(news)
        }
        None => unreachable!(),
    }
}

/// Puts the replacement of the hit's rule in the place of the instruction that defines the value, where the hit's rule and variant match with
/// the hit's substitution. The shader stays valid, and means the same. It takes at most 64 fresh numbers. After `OutOfMemory` nothing has changed.
pub fn rewrite_at(
    alloc: Global,
    work: &mut Work,
    table: &Table,
    value: ValueId,
    hit: &Hit,
) -> Result<(), OutOfMemory>
    requires fits { Fits work.old table.now.rules }
    requires hit { IsHit table.now.rules work.old.shader.body value hit.now }
    requires fresh { work.old.shader.next_value + 64 < 2 ^ 32 }
    ensures put { IfOk result (λ u. put_hit table.now.rules work.old.shader value hit.now ≡ Some work.new.shader) }
    ensures valid { IfOk result (λ u. Valid work.new.shader) }
    ensures same { IfOk result (λ u. Same work.old.shader work.new.shader) }
    ensures undone { OnErr result (work.new ≡ work.old) }
    ensures fits { Fits work.new table.now.rules }
    ensures few { IfOk result (λ u. work.new.shader.next_value ≤ work.old.shader.next_value + 64) }
    ensures falls { is_descending table.now ≡ true → IfOk result (λ u. weight_of (op_weight table.now) work.new.shader + 1 ≤ weight_of (op_weight table.now) work.old.shader) }
{
    work.keeps_shape();
    table.weights_are_few();
    let rule = table.rule(hit.rule);
    // The proof learns that the rule is formed.
    let _number = rule.number;
    let news = new_instrs(alloc, work, rule, hit.variant, value, hit.subst.as_slice())?;
    work.replace_in_place(alloc, value, &news)?;
    Ok(())
}
