//! Steps by rules until none is legal.

ghost use Rattle.std.specs.Prelude.{◌≡◌, ◌+◌, ◌*◌, ◌<◌, ◌≤◌, ◌^◌, ◌⊎◌, ℕ, IfOk, OnErr, Some, None, length, true};
ghost use Rattle.rule_term.specs.Descending.{is_descending};
ghost use Rattle.rule_term.specs.Table.{op_weight};
ghost use Rattle.nir_ir.specs.declared.ids.ValueId as ids;
ghost use Rattle.nir_search.specs.First.{first_hit};
ghost use Rattle.nir_search.specs.Steps.{is_settled};
ghost use Rattle.nir_search.specs.Weight.{weight_of};
ghost use Rattle.nir_search.specs.Work.{Fits};
ghost use Rattle.nir_validate.specs.Valid.{Valid};
ghost use Rattle.nir_mean.specs.Same.{Same};
ghost use Rattle.rewrite_pass.specs.Rewriting.{Advances, Rewrites};

use crate::rewrite::rewrite_at;
use nir_host::OutOfMemory;
use nir_ir::{Journal, Step, ValueId};
use nir_search::{Hit, Steps, Work, first_match};
use rule_term::{Options, Table};
use std::alloc::Global;
use std::sync::ledger::Ledger;

/// Does the step by what was found at a value, and tells it at the end of the journal. After `OutOfMemory` nothing has changed.
fn rewrite_found(
    alloc: Global,
    work: &mut Work,
    table: &Table,
    options: &Options,
    value: ValueId,
    hit: &Hit,
    journal: &mut Journal,
) -> Result<(), OutOfMemory>
    requires fits { Fits work.old table.now.rules }
    requires first { first_hit options.now table.now.rules work.old.shader.body value ≡ Some hit.now }
    requires fresh { work.old.shader.next_value + 64 < 2 ^ 32 }
    ensures steps { Rewrites options.now table.now.rules work.old.shader work.new.shader journal.old journal.new }
    ensures done { IfOk result (λ u. Advances options.now table.now work.old.shader work.new.shader journal.old journal.new 1) }
    ensures fits { Fits work.new table.now.rules }
{
    let _ = options;
    let step = Step::Rule {
        value,
        rule: table.rule(hit.rule).number,
        variant: hit.variant,
    };
    journal.push(step)?;
    match rewrite_at(alloc, work, table, value, hit) {
        Ok(()) => Ok(()),
        Err(no_memory) => {
            let _undone = journal.pop();
            Err(no_memory)
        }
    }
}

/// Does steps at a value until no rule matches there, or so many were done. Answers how many.
fn rewrite_here<L: Ledger>(
    alloc: Global,
    work: &mut Work,
    table: &Table,
    options: &Options,
    limit: u64,
    value: ValueId,
    journal: &mut Journal,
    steps: &mut Steps<L>,
) -> Result<u64, OutOfMemory>
    requires fits { Fits work.old table.now.rules }
    requires fresh { work.old.shader.next_value + 64 * limit < 2 ^ 32 }
    ensures steps { Rewrites options.now table.now.rules work.old.shader work.new.shader journal.old journal.new }
    ensures done { IfOk result (λ n. Advances options.now table.now work.old.shader work.new.shader journal.old journal.new n) }
    ensures few { IfOk result (λ n. n ≤ limit) }
    ensures none { IfOk result (λ n. n < limit → first_hit options.now table.now.rules work.new.shader.body value ≡ None) }
    ensures fits { Fits work.new table.now.rules }
{
    for count in 0..limit {
        match first_match(table, options, work, value, steps) {
            Some(hit) => rewrite_found(alloc, work, table, options, value, &hit, journal)?,
            None => return Ok(count),
        }
    }
    Ok(limit)
}

/// Does steps at each value in turn, until so many were done. Answers how many; 0 only where no rule matches anywhere, or none may be done.
fn one_pass<L: Ledger>(
    alloc: Global,
    work: &mut Work,
    table: &Table,
    options: &Options,
    limit: u64,
    journal: &mut Journal,
    steps: &mut Steps<L>,
) -> Result<u64, OutOfMemory>
    requires fits { Fits work.old table.now.rules }
    requires fresh { work.old.shader.next_value + 64 * limit < 2 ^ 32 }
    ensures steps { Rewrites options.now table.now.rules work.old.shader work.new.shader journal.old journal.new }
    ensures done { IfOk result (λ n. Advances options.now table.now work.old.shader work.new.shader journal.old journal.new n) }
    ensures few { IfOk result (λ n. n ≤ limit) }
    ensures settled { IfOk result (λ n. n ≡ 0 → 0 < limit → is_settled options.now table.now.rules work.new.shader ≡ true) }
    ensures fits { Fits work.new table.now.rules }
{
    work.keeps_shape();
    let mut count = 0;
    for number in 0..work.next_value() {
        let left = limit - count;
        let value = ValueId(number);
        count += rewrite_here(alloc, work, table, options, left, value, journal, steps)?;
    }
    Ok(count)
}

/// Does steps by the first rule that matches at a value, again and again, until no rule matches at any value or so many were done; answers how many.
/// It goes through the values in turn, stays at each until no rule matches there, and starts over where a pass has done a step. Each step
/// is told at the end of the journal. The shader stays valid, and means the same. After `OutOfMemory` the work and the journal stand behind whole
/// steps. A step takes at most 64 fresh numbers, and there have to be numbers for all. By a table that descends no rule matches any more where the limit
/// is at least the weight of the shader.
pub fn rewrite_all<L: Ledger>(
    alloc: Global,
    work: &mut Work,
    table: &Table,
    options: &Options,
    limit: u64,
    journal: &mut Journal,
    steps: &mut Steps<L>,
) -> Result<u64, OutOfMemory>
    requires fits { Fits work.old table.now.rules }
    requires fresh { work.old.shader.next_value + 64 * limit < 2 ^ 32 }
    ensures steps { Rewrites options.now table.now.rules work.old.shader work.new.shader journal.old journal.new }
    ensures number { IfOk result (λ n. length journal.new ≡ length journal.old + n) }
    ensures few { IfOk result (λ n. n ≤ limit) }
    ensures settled { IfOk result (λ n. (is_settled options.now table.now.rules work.new.shader ≡ true) ⊎ (n ≡ limit)) }
    ensures valid { Valid work.new.shader }
    ensures same { Same work.old.shader work.new.shader }
    ensures fits { Fits work.new table.now.rules }
    ensures falls { is_descending table.now ≡ true → IfOk result (λ n. weight_of (op_weight table.now) work.new.shader + n ≤ weight_of (op_weight table.now) work.old.shader) }
    ensures ends { is_descending table.now ≡ true → weight_of (op_weight table.now) work.old.shader ≤ limit → IfOk result (λ n. is_settled options.now table.now.rules work.new.shader ≡ true) }
{
    work.keeps_shape();
    table.rules_hold();
    let mut done = 0;
    for _pass in 0..limit {
        let count = one_pass(alloc, work, table, options, limit - done, journal, steps)?;
        if count == 0 {
            return Ok(done);
        }
        done += count;
    }
    Ok(done)
}

/// Whether no rule of the table matches at any value. It takes no memory.
pub fn is_settled<L: Ledger>(
    work: &Work,
    table: &Table,
    options: &Options,
    steps: &mut Steps<L>,
) -> bool
    requires fits { Fits work.now table.now.rules }
    ensures { result ≡ is_settled options.now table.now.rules work.now.shader }
{
    work.keeps_shape();
    table.rules_hold();
    for number in 0..work.next_value() {
        if first_match(table, options, work, ValueId(number), steps).is_some() {
            return false;
        }
    }
    true
}
