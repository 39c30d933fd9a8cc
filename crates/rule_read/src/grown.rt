//! What was read of a rule file so far: it grows item by item.

ghost use Rattle.std.specs.Prelude.{◌≡◌, OnOk, IfErr};
ghost use Rattle.rule_spelling.specs.Files.{AWeight, ARule, ALine};
ghost use Rattle.term_read.specs.declared.fault.RuleFault.TheVariants.{OutOfMemory as NoMemory};
ghost use Rattle.rule_read.specs.Growing.{grown_says, no_file, with_item};
ghost use Rattle.rule_read.specs.Says.{line_says, rule_says};

use crate::entry::{Entries, Entry, Line, Lines, WeightLine, Weights};
use rule_term::Rule;
use std::alloc::Global;
use term_read::RuleFault;

/// Rules with their evidence, and weights.
#[derive(Drop)]
pub struct Grown {
    pub(crate) entries: Entries,
    pub(crate) weights: Weights,
}

impl Grown {
    /// Nothing. This takes no memory.
    pub fn new(alloc: Global) -> Grown
        ensures { grown_says result ≡ no_file }
    {
        Grown {
            entries: Entries::new(alloc),
            weights: Weights::new(alloc),
        }
    }

    /// One more weight.
    #[tactic(auto, using(crate::proofs::GrownItems::weights_append))]
    pub fn add_weight(&mut self, line: WeightLine) -> Result<(), RuleFault>
        ensures ok { OnOk result (grown_says self.new ≡ with_item (grown_says self.old) (AWeight line.op line.weight)) }
        ensures err { IfErr result (λ fault. fault ≡ NoMemory) }
    {
        match self.weights.push(line) {
            Ok(()) => Ok(()),
            Err(_no_memory) => Err(RuleFault::OutOfMemory),
        }
    }

    /// One more rule, which has no evidence yet.
    #[tactic(auto, using(crate::proofs::GrownItems::entries_append))]
    pub fn add_rule(&mut self, alloc: Global, rule: Rule) -> Result<(), RuleFault>
        ensures ok { OnOk result (grown_says self.new ≡ with_item (grown_says self.old) (ARule (rule_says rule))) }
        ensures err { IfErr result (λ fault. fault ≡ NoMemory) }
    {
        let entry = Entry {
            rule,
            lines: Lines::new(alloc),
        };
        match self.entries.push(entry) {
            Ok(()) => Ok(()),
            Err(_no_memory) => Err(RuleFault::OutOfMemory),
        }
    }

    /// One more line of evidence for the last rule, where there is one.
    #[tactic(auto, using(crate::proofs::GrownItems::line_append))]
    pub fn add_line(&mut self, line: Line) -> Result<(), RuleFault>
        ensures ok { OnOk result (grown_says self.new ≡ with_item (grown_says self.old) (ALine (line_says line))) }
        ensures err { IfErr result (λ fault. fault ≡ NoMemory) }
    {
        let Some(entry) = self.entries.pop() else {
            return Ok(());
        };
        let Entry { rule, lines } = entry;
        let mut lines = lines;
        match lines.push(line) {
            Ok(()) => {}
            Err(_no_memory) => return Err(RuleFault::OutOfMemory),
        }
        match self.entries.push(Entry { rule, lines }) {
            Ok(()) => Ok(()),
            Err(_no_memory) => Err(RuleFault::OutOfMemory),
        }
    }
}
