//! Variants of rules: which of the two first sources of commutative opcodes stand swapped.

ghost use Rattle.rule_term.specs.Variants.{VariantsKeepValues};

/// A variant of a rule: the rule's place in the table, and the variant's number.
#[derive(Clone, Copy, Debug, PartialEq, Eq)]
pub struct RuleVariant {
    pub rule: u32,
    pub variant: u32,
}

/// At all sizes that fit its opcodes, and for all values of its variables, a variant of a search side has its value.
pub fn variants_keep_values()
    ensures law { VariantsKeepValues }
{}
