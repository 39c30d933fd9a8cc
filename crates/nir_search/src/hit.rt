//! What a match finds.

use nir_ir::{Swizzle, ValueId};
use short_lists::Short;

/// What a variable of a rule is bound to: a value, and which of its components stand in each place.
#[derive(Debug, Default, Drop)]
pub struct Bind {
    pub value: ValueId,
    pub comps: Swizzle,
}

/// What each variable of a rule is bound to, by its number, for at most 16 variables.
pub type Subst = Short<Bind, 16>;

/// A rule of a table that matches: its place in the table, which variant of it, and what its variables are bound to.
#[derive(Debug, Drop)]
pub struct Hit {
    pub rule: u32,
    pub variant: u32,
    pub subst: Subst,
}
