//! What all variants of a rule have in common.

ghost use Rattle.rule_variants.specs.SearchSides.{VariantsAreSides, VariantsKeepNodes};

/// A variant has the nodes of the terms in another order, with all that they ask. Where the rule is formed, it has the form of a search side, but that
/// its variables need not stand in the order of their numbers. Its value is that of the search side: `variants_keep_values` of rule_term.
pub fn variants_are_sides()
    ensures nodes { VariantsKeepNodes }
    ensures sides { VariantsAreSides }
{}
