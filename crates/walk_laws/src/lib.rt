//! Laws of validity along the walk: what a valid shader is, part by part; what is carried along the walk; and that changes
//! in place keep a shader valid. Each function does nothing: its contract is the law.
#![tactic(auto)]

ghost use Rattle.nir_validate.specs.ByParts.{ValidIsByParts};
ghost use Rattle.walk_laws.specs.PlacedLaws.{ValidPlaced};

/// A shader is valid exactly where blocks and others take turns in its lists, jumps stand in loops, its items fit, each if, each
/// loop and each block that does anything is reached, and what is reached uses what is defined on every path to it.
pub fn valid_by_parts()
    ensures { ValidIsByParts }
{}

/// A valid shader stays valid where instructions stand in the place of the one that defines a value, the last of them defines it with
/// the same kind, they fit, and what they read is defined wherever what that one reads is, with all of which that is made.
pub fn placed_instructions_keep_validity()
    ensures { ValidPlaced }
{}
