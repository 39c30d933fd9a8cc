//! What a match says of values, and that steps by rules that hold keep what a shader means: at all sizes, wherever the instructions
//! stand. Each function does nothing: its contract is the law.
#![tactic(auto)]

ghost use Rattle.rule_meaning.specs.PutLaws.{PutKeeps};
ghost use Rattle.rule_meaning.specs.StepSame.{ReplayKeeps};

/// A valid shader stays shaped and valid and means the same where the replacement of a rule that holds is put at a value at which a
/// variant of the rule matches.
pub fn rules_that_hold_keep_meaning()
    ensures { PutKeeps }
{}

/// And so it does by legal steps in turn, whatever table of rules that hold they are legal by.
pub fn legal_steps_keep_meaning()
    ensures { ReplayKeeps }
{}
