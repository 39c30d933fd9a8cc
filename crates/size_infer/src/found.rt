//! What is found of a rule before its typings are listed.

ghost use Rattle.std.specs.Prelude.{IfOk};
ghost use Rattle.size_infer.specs.FoundFor.{IsFoundFor};

use crate::classes::{Classes, classes_of};
use crate::walk::asked_of;
use nir_host::OutOfMemory;
use rule_term::Rule;
use std::alloc::Global;

/// The classes of a rule's nodes, and how many nodes each side has.
#[derive(Drop)]
pub(crate) struct Found {
    pub(crate) classes: Classes,
    pub(crate) searched: usize,
    pub(crate) replaced: usize,
}

/// Joins the nodes of a rule that have one size.
pub(crate) fn found_of(alloc: Global, rule: &Rule) -> Result<Found, OutOfMemory>
    ensures { IfOk result (λ found. IsFoundFor rule.now found) }
{
    let asked = asked_of(alloc, rule)?;
    let classes = classes_of(asked.rules.as_slice());
    Ok(Found {
        classes,
        searched: asked.searched,
        replaced: asked.replaced,
    })
}
