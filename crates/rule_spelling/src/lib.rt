//! How rule files are spelled: their grammar as texts, and that its texts are exactly those that are read. There is no code
//! here: each function's contract is a law.
#![tactic(auto)]

ghost use Rattle.rule_spelling.specs.Laws.{
  FaultIsFirst,
  FormulaIsRead,
  FormulaIsSpelled,
  ReadIsSpelled,
  RulesAreFormed,
  RulesAreNumbered,
  SpelledIsRead,
  WeightsAreGood,
};

use rule_term::formed_is_tested;

/// What is read of a text is what it says.
pub fn read_is_spelled()
    ensures files { ReadIsSpelled }
    // So are the formulas over options.
    ensures formulas { FormulaIsSpelled }
{}

/// A text that says something is read so.
pub fn spelled_is_read()
    ensures files { SpelledIsRead }
    // So are the formulas over options.
    ensures formulas { FormulaIsRead }
{}

/// A fault stands at a token of the text, and no text that has the tokens up to this one, and this one, says anything.
pub fn fault_is_first()
    ensures { FaultIsFirst }
{}

/// Each rule that a text says is formed: an opcode is sought, opcodes have their sources, variables are numbered in order, and
/// the replacement has no other.
pub fn rules_are_formed()
    ensures formed { RulesAreFormed }
    // They have the numbers from 0 on.
    ensures numbered { RulesAreNumbered }
{
    formed_is_tested();
}

/// The weights that a text says are good: no opcode is weighed twice, mov never, and none weighs more than 60.
pub fn weights_are_good()
    ensures { WeightsAreGood }
{}
