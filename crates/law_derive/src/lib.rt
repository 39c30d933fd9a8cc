//! Derivations: steps by laws of the opcodes, and calculations, that lead from one side of a rule to the other. Here stand the table of
//! the laws, what each step makes of a term or why it does not apply, the check of a derivation, and that one in which nothing is wrong
//! shows that both sides are equal.
#![tactic(auto)]

ghost use Rattle.law_derive.specs.LawsHold.{LawsHold};
ghost use Rattle.law_derive.specs.Sound.{DerivationsAreSound};

mod binding;
mod calc;
mod check;
mod cond;
mod expr;
mod fault;
mod filling;
mod law;
mod letters;
mod matching;
mod node;
mod parts;
mod reading;
mod same;
mod setting;
mod side;
mod sizes;
mod step;
mod table;
mod terms;

pub use check::check_derivation;
pub use fault::{DeriveFault, StepFault};
pub use law::{Law, LawNode};
pub use node::{Kind, Node};
pub use table::laws;

/// Each law holds at each of its sizes, for all words of its letters that meet its condition.
pub fn laws_hold()
    ensures { LawsHold }
{}

/// A derivation in which nothing is wrong shows that both sides of the rule have one value at the typing, for all values that meet
/// the conditions on all occurrences of the variables.
pub fn derivations_are_sound()
    ensures { DerivationsAreSound }
{}
