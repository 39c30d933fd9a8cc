//! Circuits of gates for the opcodes, the clauses of a rule at a typing, and what they show: where no assignment makes all clauses
//! true, both sides of the rule are equal. There is no code here: `bit_circuit` and `rule_check` cite what stands under `specs/`.
#![tactic(auto)]
