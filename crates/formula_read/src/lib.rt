//! The reader of formulas over options, by their grammar (`rule_spelling`): exactly the formula that a text says, or that it says none.
#![tactic(auto)]

mod formula_text;
mod parse;

pub use parse::formula;
