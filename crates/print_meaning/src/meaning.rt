//! That printing a shader keeps what it means.

ghost use Rattle.print_meaning.specs.RenumberedLaws.{RenumberedIsSame};

/// A shader in text order means the same as the shader.
#[tactic(auto, using(crate::proofs::SameRuns::renumbered_is_same))]
pub fn renumbering_keeps_meaning()
    ensures { RenumberedIsSame }
{}
