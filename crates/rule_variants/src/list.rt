//! All variants of a rule, in order.

ghost use Rattle.std.specs.Prelude.{◌≡◌, ◌≤◌, length, IfOk};
ghost use Rattle.rule_variants.specs.Sides.{sides_of, variants_of};

use crate::copy::side_of;
use crate::count::variant_count;
use nir_host::{OutOfMemory, Seq};
use rule_term::{Rule, Term};
use std::alloc::Global;

/// The search sides of a rule's variants. The place of one is the variant's number.
pub type Variants = Seq<Term>;

/// The search sides of the rule's variants in the order of their numbers, at most 256: each is the search side in which the sources of the
/// commutative opcodes stand swapped whose bit in the variant's number is 1, in preorder. The first 8 count, and the first side is the rule's own.
/// `OutOfMemory` where there is no memory for them.
pub fn variants(alloc: Global, rule: &Rule) -> Result<Variants, OutOfMemory>
    ensures sides { IfOk result (λ list. sides_of list ≡ variants_of rule.now) }
    ensures few { IfOk result (λ list. length list ≤ 256) }
{
    let mut list = Seq::new(alloc);
    for variant in 0..variant_count(rule) {
        let side = side_of(alloc, rule, variant)?;
        list.push(side)?;
    }
    Ok(list)
}
