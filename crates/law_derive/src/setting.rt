//! What a derivation is checked at.

use rule_term::{Known, Rule, Typing};

/// The rule, one of its typings, and the sizes that its variables have there.
#[derive(Clone, Copy)]
pub(crate) struct Setting<'a> {
    pub(crate) rule: &'a Rule,
    pub(crate) typing: &'a Typing,
    pub(crate) known: Known,
}
