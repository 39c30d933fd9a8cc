//! What the second round has found so far.

ghost use Rattle.std.specs.Prelude.{◌≡◌};
ghost use Rattle.nir_validate.specs.Least.{sooner};
ghost use Rattle.nir_validate.specs.Steps.{broken};

use crate::fault::{Fault, kept};
use crate::scope::Scope;

/// Where the round is: the sets of the values that are defined along paths, the first fault so far and
/// the number of the next item.
#[derive(Drop)]
pub(crate) struct Round {
    pub scope: Scope,
    pub found: Option<Fault>,
    pub item: u64,
}

impl Round {
    /// Keeps the fault that an item breaks a rule, where the rule is not kept and no sooner fault was found.
    pub(crate) fn report(&mut self, is_kept: bool, rule: u8, item: u64)
        ensures { self.new ≡ record self.old { found = sooner self.old.found (broken is_kept rule item) } }
    {
        self.found = kept(self.found, is_kept, rule, item);
    }
}
