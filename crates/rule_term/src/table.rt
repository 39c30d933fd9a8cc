//! Tables of rules that hold, with the weights of opcodes.

ghost use Rattle.std.specs.Prelude.{◌≡◌, ◌≢◌, ◌<◌, ◌≤◌, ◌^◌, [], ◌∷◌, ◌++◌, length, slice_get, Some, OnOk, OnErr};
ghost use Rattle.nir_ops.specs.declared.op.Op.{Op as Opcode};
ghost use Rattle.nir_ops.specs.declared.op.Op.TheVariants.{Mov};
ghost use Rattle.rule_term.specs.Holds.{Holds};
ghost use Rattle.rule_term.specs.Table.{AllBelow, AllFormed, AllHold, Rising, op_weight};
ghost use Rattle.rule_term.specs.Weights.{place_of, weight_at, initial_weight, IsWeighed};

use crate::rule::Rule;
use nir_host::{OutOfMemory, Seq};
use nir_ops::Op;
use std::alloc::Global;
use std::marker::Model;

/// Rules in the order in which they are tried, and a weight for each opcode. Its type keeps that each rule is formed
/// (`specs/Formed.antt`) and holds (`specs/Holds.antt`), that their numbers rise, and that no weight is above 60 and that of a move is 0.
/// Contracts see the list of the rules and that of the weights.
#[derive(Debug, Drop)]
pub struct Table {
    rules: Seq<Rule>,
    weights: [u8; OPCODES],
}

/// How many opcodes there are.
const OPCODES: usize = 88;

impl Model for Table {
    ghost use Rattle.rule_term.specs.Table.{Table as Whole, table_code};

    ghost Value = { Whole };

    ghost coded = { table_code };

    ghost use Rattle.rule_term.specs.Table.{IsTable};
    ghost use Rattle.rule_term.specs.Weights.{IsWeighed};

    ghost view = { λ t. record { rules = t.rules; weights = t.weights } };

    ghost invariant = { λ t. IsTable t.rules × IsWeighed t.weights };
}

impl Table {
    /// The table of no rules, in which each opcode weighs 1, and a move nothing. It takes no memory.
    pub fn new(alloc: Global) -> Table
        ensures rules { result.rules ≡ [] }
        ensures weights { (op : Opcode) → op_weight result op ≡ initial_weight op }
    {
        Table {
            rules: Seq::new(alloc),
            weights: initial_weights(),
        }
    }

    /// Adds a rule that holds at the end. Its number is above all others. After `OutOfMemory` the table
    /// is as it was, and the rule is dropped.
    pub fn add(&mut self, rule: Rule) -> Result<(), OutOfMemory>
        requires holds { Holds rule }
        requires greater { AllBelow rule.number self.old.rules }
        ensures ok { OnOk result (self.new.rules ≡ self.old.rules ++ rule ∷ []) }
        ensures err { OnErr result (self.new.rules ≡ self.old.rules) }
        ensures weights { self.new.weights ≡ self.old.weights }
    {
        // The proof learns that the number is one of 32 bits, so that there are not more rules, and that the rule is formed.
        let _number = rule.number;
        self.rules.push(rule)
    }

    /// Gives the opcode, which is no move, another weight.
    #[tactic(auto, using(crate::proofs::WeightLemmas::set_here, crate::proofs::WeightLemmas::weighed_set))]
    pub fn set_weight(&mut self, op: Op, weight: u8)
        requires ordinary { op ≢ Mov }
        requires few { weight ≤ 60 }
        ensures set { op_weight self.new op ≡ weight }
        ensures others { (other : Opcode) → other ≢ op → op_weight self.new other ≡ op_weight self.old other }
        ensures rules { self.new.rules ≡ self.old.rules }
    {
        self.weights[place_of(op)] = weight;
    }

    /// What the opcode weighs.
    #[tactic(auto, using(crate::proofs::WeightLemmas::weight_is_few))]
    pub fn weight(&self, op: Op) -> u8
        ensures value { result ≡ op_weight self.now op }
        ensures few { result ≤ 60 }
        ensures mov { op ≡ Mov → result ≡ 0 }
    {
        self.weights[place_of(op)]
    }

    /// No weight is above 60, and that of a move is 0: the type keeps it.
    pub fn weights_are_few(&self)
        ensures few { (op : Opcode) → op_weight self.now op ≤ 60 }
        ensures mov { op_weight self.now Mov ≡ 0 }
    {
        let _weights = &self.weights;
    }

    /// Each rule is formed and holds, and their numbers rise: the type keeps it.
    pub fn rules_hold(&self)
        ensures formed { AllFormed self.now.rules }
        ensures hold { AllHold self.now.rules }
        ensures rising { Rising self.now.rules }
    {
        let _rules = &self.rules;
    }

    /// How many rules the table has: at most 2^32, since their numbers rise.
    pub fn len(&self) -> u64
        ensures count { result ≡ length self.now.rules }
        ensures few { result ≤ 2 ^ 32 }
    {
        self.rules.len() as u64
    }

    /// The rule at a place, which is below the number of rules.
    pub fn rule(&self, place: u32) -> &Rule
        requires { place < length self.now.rules }
        ensures value { slice_get self.now.rules place ≡ Some result.now }
        ensures holds { Holds result.now }
    {
        &self.rules.as_slice()[place as usize]
    }
}

/// 1 for each opcode, and 0 for a move.
#[tactic(auto, using(crate::proofs::WeightLemmas::weight_at_start))]
fn initial_weights() -> [u8; OPCODES]
    ensures weights { (op : Opcode) → weight_at result op ≡ initial_weight op }
    ensures weighed { IsWeighed result }
{
    let mut weights = [1; OPCODES];
    weights[place_of(Op::Mov)] = 0;
    weights
}

/// Where the opcode stands in the table of opcodes.
fn place_of(op: Op) -> usize
    ensures place { result ≡ place_of op }
    ensures within { result < 88 }
{
    op as usize
}
