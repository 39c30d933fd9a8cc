//! The value of a side of a rule: opcodes evaluated along its term.

ghost use Rattle.std.specs.Prelude.{◌≡◌, true, [], ◌∷◌, length};
ghost use Rattle.rule_term.specs.Typings.{is_typing};
ghost use Rattle.rule_term.specs.Holds.{are_words, values_of};
ghost use Rattle.rule_term.specs.Sides.{side_terms, side_part};

use crate::nodes::nodes_in;
use crate::rule::Rule;
use crate::typing::Typing;
use crate::value::value_of;

/// The side of a rule that is sought, and the one that replaces it.
#[derive(Clone, Copy, Debug, PartialEq, Eq)]
pub enum Side {
    Search,
    Replace,
}

/// The value of a side of the rule at the typing, where variable k has value k. The typing is one of the
/// rule's, and there is a word of its size for each variable.
pub fn eval_term(rule: &Rule, side: Side, typing: &Typing, values: &[u64]) -> u64
    requires typing { is_typing rule.now typing.now.widths ≡ true }
    requires values { length values.now ≡ rule.now.vars }
    requires words { are_words rule.now typing.now.widths values.now ≡ true }
    ensures { values_of (side_terms side rule.now) (side_part side rule.now typing.now.widths) values.now ≡ result ∷ [] }
{
    let widths = typing.widths.as_slice();
    let searched = nodes_in(&rule.search);
    match side {
        Side::Search => value_of(&rule.search, &widths[..searched], values)
            .word
            .bits,
        Side::Replace => value_of(&rule.replace, &widths[searched..], values)
            .word
            .bits,
    }
}
