//! Bit circuits of rules: the clauses of a rule at a typing (Tseitin's encoding of both sides), which no assignment makes all true only
//! where both sides are equal for all values that meet the conditions.
#![tactic(auto)]

mod arithmetic;
mod choices;
mod circuit;
mod clauses;
mod compare;
mod conditions;
mod fault;
mod inputs;
mod literal;
mod lowest;
mod opcodes;
mod product;
mod row;
mod shift;
mod sum;
mod terms;
mod variables;
mod without;
mod word;

pub use clauses::clauses_of;
pub use fault::CircuitFault;
pub use variables::bits_of_vars;
