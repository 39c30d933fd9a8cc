//! Tests of rules: their texts, sizes, variants and evidence, and how they are used in a shader at work, on tables that were
//! worked out by hand. It has no code but tests, and calls what the libraries make public.
#![tactic(auto)]

#[cfg(test)]
mod clause_logs;
#[cfg(test)]
mod derivation_rows;
#[cfg(test)]
mod derivations;
#[cfg(test)]
mod every_size;
#[cfg(test)]
mod formulas;
#[cfg(test)]
mod one_rule;
#[cfg(test)]
mod replacements;
#[cfg(test)]
mod rule_checks;
#[cfg(test)]
mod rule_faults;
#[cfg(test)]
mod rule_limits;
#[cfg(test)]
mod rule_logs;
#[cfg(test)]
mod rule_sizes;
#[cfg(test)]
mod rule_texts;
#[cfg(test)]
mod rules;
#[cfg(test)]
mod shown_evidence;
#[cfg(test)]
mod shown_rules;
#[cfg(test)]
mod solver_logs;
#[cfg(test)]
mod variants;
#[cfg(test)]
mod works;
