//! All typings of a rule, or why they are of no use.

ghost use Rattle.std.specs.Prelude.{◌≡◌, ◌<◌, ◌≤◌, ℕ, true, Err, IfOk, [], length};
ghost use Rattle.std.specs.List.{All};
ghost use Rattle.rule_term.specs.Typings.{is_typing, typings};
ghost use Rattle.size_infer.specs.Grown.{all_widths_of};
ghost use Rattle.size_infer.specs.SizeFaults.{TellsFault};
ghost use Rattle.size_infer.specs.declared.fault.SizeFault.TheVariants.{Ambiguous, Contradiction, TooMany};
ghost use Rattle.size_laws.specs.Ambiguous.{IsDefinite, IsFirstAmbiguous};

use crate::fault::SizeFault;
use crate::found::found_of;
use crate::grow::{Typings, all_lists};
use rule_term::Rule;
use std::alloc::Global;

/// All typings of the rule, of which there are 1 to 64, or the fault of its sizes (`specs/SizeFaults.antt`). `Contradiction` exactly where there is none; else `Ambiguous` exactly
/// where two agree on the search side and differ at a node of the replacement, with the first such node; else `TooMany`
/// exactly where there are more than 64. `OutOfMemory` where there is no memory for them. The time is quadratic in the
/// number of the rule's nodes, of which there are at most 98.
pub fn typings(alloc: Global, rule: &Rule) -> Result<Typings, SizeFault>
    ensures all { IfOk result (λ list. all_widths_of list ≡ typings rule.now) }
    ensures each { IfOk result (λ list. All (λ typing. is_typing rule.now typing.widths ≡ true) list) }
    ensures some { IfOk result (λ list. 1 ≤ length list) }
    ensures few { IfOk result (λ list. length list ≤ 64) }
    ensures definite { IfOk result (λ list. IsDefinite rule.now) }
    ensures contradiction { result ≡ Err Contradiction → typings rule.now ≡ [] }
    ensures ambiguous { (node : ℕ) → result ≡ Err (Ambiguous node) → IsFirstAmbiguous rule.now node }
    ensures too_many { result ≡ Err TooMany → 64 < length (typings rule.now) }
    ensures too_many_definite { result ≡ Err TooMany → IsDefinite rule.now }
    ensures fault { TellsFault rule.now result }
{
    let found = found_of(alloc, rule)?;
    let nodes = found.searched + found.replaced;
    if found.classes.find_none(nodes).is_some() {
        return Err(SizeFault::Contradiction);
    }
    if let Some(node) = found.classes.find_two(found.searched, found.replaced) {
        return Err(SizeFault::Ambiguous(node));
    }
    if found.classes.are_too_many(nodes) {
        return Err(SizeFault::TooMany);
    }
    let list = all_lists(alloc, &found.classes, nodes)?;
    Ok(list)
}
