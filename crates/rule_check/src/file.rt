//! Rule files: which rules are accepted.

ghost use Rattle.std.specs.Prelude.{◌≡◌, ◌≢◌, ◌≤◌, [], map, IfOk};
ghost use Rattle.nir_ops.specs.declared.op.Op.TheVariants.{Mov};
ghost use Rattle.nir_ops.specs.declared.op.Op.{Op as Opcode};
ghost use Rattle.rule_term.specs.Table.{op_weight};
ghost use Rattle.rule_read.specs.RuleFile.{AreWeights};
ghost use Rattle.rule_read.specs.Says.{weight_says};
ghost use Rattle.rule_check.specs.Accepted.{accepted, entries_say, refusals, weight_in};
ghost use Rattle.rule_check.specs.Answers.{IsVerdict};
ghost use Rattle.rule_check.specs.Verdicts.{AcceptedHold, IsJust, RefusedAreJust};

use crate::evidence::refusal_of;
use crate::refused::{CheckFault, Checked, RefusedList};
use nir_host::OutOfMemory;
use rule_read::{Entry, RuleFile, WeightLine};
use rule_term::Table;
use std::alloc::Global;

/// The table of the rules of the file, in order, with the weights of the file, where each rule is accepted: its sizes have no
/// fault, and at each of its typings the line chosen is the trial of all cases, which finds no difference, or a derivation or a
/// log in which nothing is wrong.
/// # Errors
/// `Refused` tells the first rule in the order of the file that is not accepted, and why (`specs/Accepted.antt`).
/// `OutOfMemory` may come at any time.
pub fn check_file(alloc: Global, file: RuleFile) -> Result<Table, CheckFault>
    ensures verdict { IsVerdict file.entries result }
    ensures just { IsJust file.entries result }
    ensures weights { IfOk result (λ table. (op : Opcode) → op_weight table op ≡ weight_in (map weight_says file.weights) op) }
{
    let mut table = weighed(alloc, file.weights.as_slice());
    for entry in file.entries.into_vec() {
        if let Some(refused) = refusal_of(alloc, &entry)? {
            return Err(CheckFault::Refused(refused));
        }
        let Entry { rule, lines: _ } = entry;
        table.add(rule)?;
    }
    Ok(table)
}

/// The table of the accepted rules of the file, in order and with their numbers in the file, with the weights of the file,
/// and a refusal for each other rule, in order. `OutOfMemory` may come at any time.
pub fn check_file_skipping(alloc: Global, file: RuleFile) -> Result<Checked, OutOfMemory>
    ensures rules { IfOk result (λ checked. checked.table.rules ≡ accepted file.entries) }
    ensures weights { IfOk result (λ checked. (op : Opcode) → op_weight checked.table op ≡ weight_in (map weight_says file.weights) op) }
    ensures refused { IfOk result (λ checked. checked.refused ≡ refusals (entries_say file.entries)) }
{
    let mut table = weighed(alloc, file.weights.as_slice());
    let mut refused = RefusedList::new(alloc);
    let entries = file.entries.into_vec();
    for entry in entries {
        match refusal_of(alloc, &entry)? {
            Some(one) => refused.push(one)?,
            None => {
                let Entry {
                    rule: accepted,
                    lines: _,
                } = entry;
                table.add(accepted)?;
            }
        }
    }
    Ok(Checked { table, refused })
}

/// The table of no rules with these weights.
fn weighed(alloc: Global, weights: &[WeightLine]) -> Table
    requires { AreWeights weights.now }
    ensures rules { result.rules ≡ [] }
    ensures weights { (op : Opcode) → op_weight result op ≡ weight_in (map weight_says weights.now) op }
{
    let mut table = Table::new(alloc);
    for line in weights {
        set_line(&mut table, line);
    }
    table
}

/// Gives the opcode of the line its weight.
fn set_line(table: &mut Table, line: &WeightLine)
    requires ordinary { line.now.op ≢ Mov }
    requires few { line.now.weight ≤ 60 }
    ensures set { op_weight table.new line.now.op ≡ line.now.weight }
    ensures others { (other : Opcode) → other ≢ line.now.op → op_weight table.new other ≡ op_weight table.old other }
    ensures rules { table.new.rules ≡ table.old.rules }
{
    table.set_weight(line.op, line.weight);
}

/// A verdict means what it is to mean (`specs/Verdicts.antt`).
pub fn verdicts_are_meant()
    ensures accepted { AcceptedHold }
    ensures refused { RefusedAreJust }
{}
