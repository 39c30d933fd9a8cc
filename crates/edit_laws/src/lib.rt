//! Laws of edits of the tree of a shader: what instructions that stand in the place of one define and use, which kinds values
//! have then, and that the shader stays shaped. Each function does nothing: its contract is the law.
#![tactic(auto)]

ghost use Rattle.edit_laws.specs.PlacedLaws.{ShapedPlaced};

/// A shader stays shaped where instructions with fresh numbers, the last of which defines the value, stand in the place of
/// the one that defines it, and read what is defined in the shader or by one of them.
pub fn placed_instructions_keep_shape()
    ensures { ShapedPlaced }
{}
