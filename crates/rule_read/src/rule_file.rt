//! A whole rule file.

use crate::entry::{Entries, Weights};
use std::marker::Model;

/// Rules with their evidence, and weights of opcodes. Its type keeps that it is numbered and weighed in order
/// (`specs/RuleFile.antt`): the rule of entry k has the number k, and the weights name each opcode at most
/// once, never mov, and are at most 60.
#[derive(Debug, Drop)]
pub struct RuleFile {
    pub entries: Entries,
    pub weights: Weights,
}

impl Model for RuleFile {
    ghost use Rattle.rule_read.specs.RuleFile.{RuleFile as Whole, IsRuleFile};

    ghost Value = { Whole };

    ghost use Rattle.std.specs.Coded.{codes};
    ghost use Rattle.rule_read.specs.contracts.entry.Entry as entry;

    ghost coded = { Prim.hlevel (codes, entry.the_row.coded) };

    ghost view = { λ f. record { entries = f.entries; weights = f.weights } };

    ghost invariant = { λ f. IsRuleFile (record { entries = f.entries; weights = f.weights }) };
}
